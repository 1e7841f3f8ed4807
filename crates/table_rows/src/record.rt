// A record of a lent run: where its count and its index stand. No other code takes a run of numbers apart.
ghost use Rattle.std.specs.Prelude.{◌≡◌, ◌<◌, get_or};
ghost use Rattle.table_rows.specs.Row.{rows_of, records_in, no_row, put_row};

use base_ids::{RECORD_NUMBERS, RowNumber, SampleCount};

// How many records a run has.
pub fn record_count(rows: &[RowNumber]) -> usize
    ensures { result ≡ records_in rows.now }
{
    rows.len() / RECORD_NUMBERS
}

// The sample count of record k.
pub fn count_at(rows: &[RowNumber], k: usize) -> SampleCount
    requires { k < records_in rows.now }
    ensures { result ≡ (get_or (rows_of rows.now) k no_row).count }
{
    rows[RECORD_NUMBERS * k]
}

// The description index of record k.
pub fn description_at(rows: &[RowNumber], k: usize) -> u32
    requires { k < records_in rows.now }
    ensures { result ≡ (get_or (rows_of rows.now) k no_row).index }
{
    rows[RECORD_NUMBERS * k + 1]
}

// Writes a row over record k.
pub fn put_row(rows: &mut [RowNumber], k: usize, count: SampleCount, index: u32)
    requires { k < records_in rows.old }
    ensures { rows.new ≡ put_row k count index rows.old }
{
    rows[RECORD_NUMBERS * k] = count;
    rows[RECORD_NUMBERS * k + 1] = index;
}
