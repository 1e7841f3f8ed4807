// The rows that remain, one after the other: rows of count 0 are passed, like neighbours are joined.
ghost use Rattle.std.specs.Prelude.{◌∷◌, ◌+◌, ◌<◌, ◌≤◌, drop};
ghost use Rattle.table_rows.specs.Row.{rows_of, records_in};
ghost use Rattle.table_rows.specs.Joined.{joined};
ghost use Rattle.table_writers.specs.Runs.{row, Passed, GivesNext};

use base_fields::refusal::Refusal;
use base_ids::{RowNumber, SampleCount};
use table_rows::record::{count_at, description_at, record_count};

// The largest count that a written field holds: 32 bits, whatever the width of a count of samples.
const FIELD_LIMIT: SampleCount = 4294967295;

// A row that remains, and the record behind its last row.
#[derive(Clone, Copy)]
pub struct RunAt {
    pub count: SampleCount,
    pub index: u32,
    pub next: usize,
}

// The first record with samples.
fn pass_empty(rows: &[RowNumber], from: usize) -> usize
    requires { from ≤ records_in rows.now }
    ensures { Passed rows.now from result }
{
    let records = record_count(rows);
    for k in from..records {
        if count_at(rows, k) != 0 {
            return k;
        }
    }
    records
}

// A run of `count` samples, joined with the like rows from a record on.
fn join(
    rows: &[RowNumber],
    from: usize,
    count: SampleCount,
    index: u32,
) -> Result<Option<RunAt>, Refusal>
    requires { (from ≤ records_in rows.now) × (0 < count) }
    ensures { GivesNext (joined (row count index ∷ drop from (rows_of rows.now))) rows.now from result }
{
    let records = record_count(rows);
    let mut total = count;
    for k in from..records {
        let more = count_at(rows, k);
        if more != 0 {
            if description_at(rows, k) != index {
                return Ok(Some(RunAt {
                    count: total,
                    index,
                    next: k,
                }));
            }
            if FIELD_LIMIT - total < more {
                return Err(Refusal::RowCountOver);
            }
            total += more;
        }
    }
    Ok(Some(RunAt {
        count: total,
        index,
        next: records,
    }))
}

// The first row that remains of those from a record on.
pub fn next_run(rows: &[RowNumber], from: usize) -> Result<Option<RunAt>, Refusal>
    requires { from ≤ records_in rows.now }
    ensures { GivesNext (joined (drop from (rows_of rows.now))) rows.now (from + 1) result }
{
    let k = pass_empty(rows, from);
    if k < record_count(rows) {
        return join(rows, k + 1, count_at(rows, k), description_at(rows, k));
    }
    Ok(None)
}
