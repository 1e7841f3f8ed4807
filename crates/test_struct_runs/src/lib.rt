// The functions over a lent slice of row structs, from plain values: a local array of rows is lent for the call and handed back.
#![tactic(auto)]

ghost use Rattle.table_sbgp.specs.Sbgp.{parse_sbgp};
ghost use Rattle.table_csgp.specs.Table.{parse_csgp};
ghost use Rattle.table_structs.specs.Table.{GivesTableIn};
ghost use Rattle.test_struct_runs.specs.Rows.{GivesReads, GivesWrites};

use base_fields::refusal::Refusal;
use base_ids::{DescriptionIndex, RowNumber, SampleNumber};
use table_row_structs::{
    SampleToGroupEntry, covered_samples, group_index_for_sample, row_at, set_row, write_rows,
};
use table_rows::SampleToGroup;

#[derive(Clone, Copy)]
pub struct TableRead {
    pub answer: Result<SampleToGroup, Refusal>,
    pub rows: [SampleToGroupEntry; 4],
}

// Reads an sbgp payload over four rows.
pub fn sbgp_over(s: &[u8], mut rows: [SampleToGroupEntry; 4]) -> TableRead
    ensures { GivesTableIn (parse_sbgp s.now 4) rows result.rows result.answer }
{
    let answer = table_structs::parse_sbgp(s, &mut rows);
    TableRead { answer, rows }
}

// The same for a csgp payload.
pub fn csgp_over(s: &[u8], mut rows: [SampleToGroupEntry; 4]) -> TableRead
    ensures { GivesTableIn (parse_csgp s.now 4) rows result.rows result.answer }
{
    let answer = table_structs::parse_csgp(s, &mut rows);
    TableRead { answer, rows }
}

#[derive(Clone, Copy)]
pub struct RowsRead {
    pub row: Result<Option<SampleToGroupEntry>, Refusal>,
    pub index: Result<DescriptionIndex, Refusal>,
    pub covered: Result<u64, Refusal>,
}

// The three readers of rows, over four rows: row k, the index of a sample, and the samples covered.
pub fn read_over(rows: [SampleToGroupEntry; 4], k: usize, sample: SampleNumber) -> RowsRead
    ensures { GivesReads rows k sample.0 result }
{
    let row = row_at(&rows, k);
    let index = group_index_for_sample(&rows, sample);
    let covered = covered_samples(&rows);
    RowsRead {
        row,
        index,
        covered,
    }
}

#[derive(Clone, Copy)]
pub struct RowsWritten {
    pub written: Result<usize, Refusal>,
    pub set: Option<()>,
    pub rows: [SampleToGroupEntry; 4],
}

// The two writers of rows, over four rows: a run of pairs is written, then row k is set.
pub fn write_over(
    numbers: &[RowNumber],
    mut rows: [SampleToGroupEntry; 4],
    k: usize,
    row: SampleToGroupEntry,
) -> RowsWritten
    ensures { GivesWrites numbers.now rows k row result }
{
    let written = write_rows(numbers, &mut rows);
    let set = set_row(&mut rows, k, row);
    RowsWritten { written, set, rows }
}
