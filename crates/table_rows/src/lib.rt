// Rows of a sample table in a lent run of numbers: the count and the description index of each, one after the other.
#![tactic(auto)]

pub mod record;

ghost use Rattle.std.specs.Prelude.{◌≡◌, ◌≤◌};
ghost use Rattle.table_rows.specs.Row.{lookup, total, rows_of, records_in, index_at, covered};
ghost use Rattle.base_ids.specs.Limits.{record_limit};
ghost use Rattle.table_rows.specs.Found.{told_index};
ghost use Rattle.base_fields.specs.Refusal.{told_value};

use base_fields::refusal::Refusal;
use base_ids::{DescriptionIndex, RECORD_LIMIT, RowNumber, SampleCount, SampleNumber};
use record::{count_at, description_at, record_count};

// What a table's reader found, beside the rows that it wrote.
#[derive(Clone, Copy)]
pub struct SampleToGroup {
    pub grouping_type: u32,
    pub grouping_type_parameter: u32,
    pub entry_count: usize,
}

fn index_at(rows: &[RowNumber], sample: SampleCount) -> u32
    requires { records_in rows.now ≤ record_limit }
    ensures { result ≡ index_at (rows_of rows.now) sample }
{
    let mut left = sample;
    for k in 0..record_count(rows) {
        let count = count_at(rows, k);
        if left < count {
            return description_at(rows, k);
        }
        left -= count;
    }
    0
}

// A count of either half in each step, so that the compiler adds eight of them at a time.
fn sum_of_counts(rows: &[RowNumber]) -> u64
    requires { records_in rows.now ≤ record_limit }
    ensures { result ≡ covered (rows_of rows.now) }
{
    let records = record_count(rows);
    let half = records / 2;
    let mut sum: u64 = 0;
    for k in 0..half {
        sum += count_at(rows, k) as u64 + count_at(rows, half + k) as u64;
    }
    if records % 2 == 1 {
        return sum + count_at(rows, 2 * half) as u64;
    }
    sum
}

// The index of the row that covers a sample; 0 past the end.
pub fn group_index_for_sample(
    rows: &[RowNumber],
    sample: SampleNumber,
) -> Result<DescriptionIndex, Refusal>
    ensures { told_index result ≡ lookup rows.now sample.0 }
{
    if RECORD_LIMIT < record_count(rows) {
        return Err(Refusal::InputTooLong);
    }
    let k = sample.0;
    Ok(DescriptionIndex(index_at(rows, k)))
}

// The samples that the rows cover.
pub fn covered_samples(rows: &[RowNumber]) -> Result<u64, Refusal>
    ensures { told_value result ≡ total rows.now }
{
    if RECORD_LIMIT < record_count(rows) {
        return Err(Refusal::InputTooLong);
    }
    Ok(sum_of_counts(rows))
}
