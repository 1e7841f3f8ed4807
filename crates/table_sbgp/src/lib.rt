// The sample-to-group atom sbgp (document 01, part 3).
#![tactic(auto)]

ghost use Rattle.std.specs.Prelude.{◌≡◌, ◌++◌, ◌+◌, ◌*◌, ◌≤◌, length, drop};
ghost use Rattle.table_rows.specs.Row.{record_numbers, records_in, flat};
ghost use Rattle.table_rows.specs.Found.{GivesTable};
ghost use Rattle.table_sbgp.specs.Sbgp.{read_rows, parse_sbgp};
ghost use Rattle.table_sbgp.specs.Head.{GivesSbgp};

use base_fields::refusal::Refusal;
use base_ids::RowNumber;
use table_front::{TableKind, read_front};
use table_rows::SampleToGroup;
use table_rows::record::{put_row, record_count};

// The fixed fields, and where the rows stand.
#[derive(Clone, Copy)]
pub struct SbgpHead {
    pub grouping_type: u32,
    pub grouping_type_parameter: u32,
    // The byte place of the first row.
    pub first: usize,
    pub entry_count: u32,
}

// The head of a payload whose rows are all there, or the first refusal.
pub fn read_sbgp(s: &[u8]) -> Result<SbgpHead, Refusal>
    ensures { GivesSbgp s.now result }
{
    let front = read_front(s, TableKind::Sbgp)?;
    let first = front.first;
    if s.len() < first + 8 * (front.count as usize) {
        return Err(Refusal::RowsCut);
    }
    Ok(SbgpHead {
        grouping_type: front.grouping_type,
        grouping_type_parameter: front.grouping_type_parameter,
        first,
        entry_count: front.count,
    })
}

// Writes the rows from place `first` of the payload in front of the lent run.
pub fn fill(s: &[u8], first: usize, count: usize, rows: &mut [RowNumber])
    requires { (first + 8 * count ≤ length s.now) × (record_numbers * count ≤ length rows.old) }
    ensures { rows.new ≡ flat (read_rows count s.now first) ++ drop (record_numbers * count) rows.old }
{
    for k in 0..count {
        let at = first + 8 * k;
        let sample_count = base_fields::read_u32(s, at);
        let index = base_fields::read_u32(s, at + 4);
        put_row(rows, k, sample_count, index);
    }
}

// Reads an sbgp payload and writes its rows in front of the lent run. Nothing is written on refusal.
pub fn parse_sbgp(s: &[u8], rows: &mut [RowNumber]) -> Result<SampleToGroup, Refusal>
    ensures { GivesTable (parse_sbgp s.now (records_in rows.old)) rows.old rows.new result }
{
    let head = read_sbgp(s)?;
    let first = head.first;
    let count = head.entry_count as usize;
    if record_count(rows) < count {
        return Err(Refusal::NoRecordLeft);
    }
    fill(s, first, count, rows);
    Ok(SampleToGroup {
        grouping_type: head.grouping_type,
        grouping_type_parameter: head.grouping_type_parameter,
        entry_count: count,
    })
}
