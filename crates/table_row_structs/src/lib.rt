// Rows of a sample table in a lent run of structs (document 01, parts 3 and 5).
#![tactic(auto)]

ghost use Rattle.std.specs.Prelude.{◌≡◌, ◌<◌, ◌/◌, length, get_or};
ghost use Rattle.base_fields.specs.Answer.{given, none};
ghost use Rattle.table_rows.specs.Row.{record_numbers, records_in, within_records};
ghost use Rattle.base_fields.specs.Refusal.{told_value};
ghost use Rattle.table_rows.specs.Found.{told_index};
ghost use Rattle.table_row_structs.specs.Records.{no_row, row_in, set_answer, lookup_in, total_in, or_too_many, read_count, copy_answer, structs_of};
ghost use Rattle.table_row_structs.specs.Steps.{told_row, told_set, GivesSet, accepted_in, GivesRows};

use base_fields::refusal::Refusal;
use base_ids::{
    DescriptionIndex, RECORD_LIMIT, RECORD_NUMBERS, RowNumber, SampleCount, SampleNumber,
};
use table_rows::record::{count_at, description_at};

// A row: so many samples of one description index.
#[derive(Clone, Copy)]
pub struct SampleToGroupEntry {
    pub sample_count: SampleCount,
    pub group_description_index: u32,
}

pub fn row_count(rows: &[SampleToGroupEntry]) -> usize
    ensures { result ≡ length rows.now }
{
    rows.len()
}

fn row_in(rows: &[SampleToGroupEntry], k: usize) -> SampleToGroupEntry
    requires { k < length rows.now }
    ensures { result ≡ get_or rows.now k no_row }
{
    rows[k]
}

// How many of n rows a call reads: all of them, or none where they are too many.
fn rows_read(n: usize) -> usize
    ensures { result ≡ read_count n }
{
    if RECORD_LIMIT < n {
        return 0;
    }
    n
}

fn found_row(row: SampleToGroupEntry) -> Result<Option<SampleToGroupEntry>, Refusal>
    ensures { told_row result ≡ given row }
{
    Ok(Some(row))
}

// What is answered where no row of n is read.
fn missing_row(n: usize) -> Result<Option<SampleToGroupEntry>, Refusal>
    ensures { told_row result ≡ within_records n none }
{
    if RECORD_LIMIT < n {
        return Err(Refusal::InputTooLong);
    }
    Ok(None)
}

// Row k, or none past the end.
pub fn row_at(rows: &[SampleToGroupEntry], k: usize) -> Result<Option<SampleToGroupEntry>, Refusal>
    ensures { told_row result ≡ row_in rows.now k }
{
    let n = row_count(rows);
    let reads = rows_read(n);
    if k < reads {
        let row = row_in(rows, k);
        return found_row(row);
    }
    missing_row(n)
}

// What is answered where row k of n is set.
fn set_told(n: usize, k: usize) -> Option<()>
    ensures { told_set result ≡ set_answer n k }
{
    if n <= k {
        return None;
    }
    Some(())
}

// Sets row k; the others stay. Past the end all stay. No row is read, so the rows may be more than a reader takes.
pub fn set_row(rows: &mut [SampleToGroupEntry], k: usize, row: SampleToGroupEntry) -> Option<()>
    ensures { GivesSet rows.old rows.new k row result }
{
    let n = rows.len();
    if k < n {
        rows[k] = row;
    }
    set_told(n, k)
}

fn sum_told(n: usize, sum: u64) -> Result<u64, Refusal>
    ensures { told_value result ≡ or_too_many n sum }
{
    if RECORD_LIMIT < n {
        return Err(Refusal::InputTooLong);
    }
    Ok(sum)
}

// The samples that the rows cover.
pub fn covered_samples(rows: &[SampleToGroupEntry]) -> Result<u64, Refusal>
    ensures { told_value result ≡ total_in rows.now }
{
    let n = row_count(rows);
    let mut sum: u64 = 0;
    for k in 0..rows_read(n) {
        sum += row_in(rows, k).sample_count as u64;
    }
    sum_told(n, sum)
}

// The record at place k of a run of numbers.
fn record_at(numbers: &[RowNumber], k: usize) -> SampleToGroupEntry
    requires { k < records_in numbers.now }
    ensures { result ≡ get_or (structs_of numbers.now) k no_row }
{
    let count = count_at(numbers, k);
    let index = description_at(numbers, k);
    SampleToGroupEntry {
        sample_count: count,
        group_description_index: index,
    }
}

// What is answered where a run of so many numbers is written over so many rows.
fn written_over(numbers: usize, rows: usize) -> Result<usize, Refusal>
    ensures { told_value result ≡ copy_answer (numbers / record_numbers) rows }
{
    let records = numbers / RECORD_NUMBERS;
    if RECORD_LIMIT < records {
        return Err(Refusal::InputTooLong);
    }
    if rows < records {
        return Err(Refusal::NoRecordLeft);
    }
    Ok(records)
}

// How many rows an answer says are written.
fn accepted(answer: Result<usize, Refusal>) -> usize
    ensures { result ≡ accepted_in answer }
{
    answer.unwrap_or(0)
}

// The records of a run of numbers are written in front; the rows behind them stay.
pub fn write_rows(numbers: &[RowNumber], rows: &mut [SampleToGroupEntry]) -> Result<usize, Refusal>
    ensures { GivesRows numbers.now rows.old rows.new result }
{
    let answer = written_over(numbers.len(), rows.len());
    let n = accepted(answer);
    for i in 0..n {
        rows[i] = record_at(numbers, i);
    }
    answer
}

// The index of the row that covers a sample; 0 past the end. No row behind that one is read.
pub fn group_index_for_sample(
    rows: &[SampleToGroupEntry],
    sample: SampleNumber,
) -> Result<DescriptionIndex, Refusal>
    ensures { told_index result ≡ lookup_in rows.now sample.0 }
{
    if RECORD_LIMIT < rows.len() {
        return Err(Refusal::InputTooLong);
    }
    let mut left = sample.0;
    for row in rows {
        if left < row.sample_count {
            return Ok(DescriptionIndex(row.group_description_index));
        }
        left -= row.sample_count;
    }
    Ok(DescriptionIndex(0))
}
