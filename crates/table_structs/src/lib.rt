// Both sample tables, read into a lent run of row structs (document 01, parts 3 and 4).
#![tactic(auto)]

mod plan;
mod stream;

ghost use Rattle.std.specs.Prelude.{length};
ghost use Rattle.table_sbgp.specs.Sbgp.{parse_sbgp};
ghost use Rattle.table_csgp.specs.Table.{parse_csgp};
ghost use Rattle.table_structs.specs.Table.{GivesTableIn, parsed_table};

use base_fields::refusal::Refusal;
use plan::plan_table;
use stream::next_row;
use table_front::TableKind;
use table_row_structs::SampleToGroupEntry;
use table_rows::SampleToGroup;

// Writes the rows in front, one by one; there are none on refusal.
fn parse_table(
    s: &[u8],
    kind: TableKind,
    rows: &mut [SampleToGroupEntry],
) -> Result<SampleToGroup, Refusal>
    ensures { GivesTableIn (parsed_table kind s.now (length rows.old)) rows.old rows.new result }
{
    let plan = plan_table(s, kind, rows.len());
    let mut cursor = plan.first;
    for k in 0..plan.count {
        let next = next_row(s, plan.table, cursor);
        rows[k] = next.row;
        cursor = next.rest;
    }
    plan.answer
}

// Reads an sbgp payload and writes its rows in front of the lent records. Nothing is written on refusal.
pub fn parse_sbgp(s: &[u8], rows: &mut [SampleToGroupEntry]) -> Result<SampleToGroup, Refusal>
    ensures { GivesTableIn (parse_sbgp s.now (length rows.old)) rows.old rows.new result }
{
    parse_table(s, TableKind::Sbgp, rows)
}

// Reads a csgp payload and writes the rows of its samples in front of the lent records. Nothing is written on refusal.
pub fn parse_csgp(s: &[u8], rows: &mut [SampleToGroupEntry]) -> Result<SampleToGroup, Refusal>
    ensures { GivesTableIn (parse_csgp s.now (length rows.old)) rows.old rows.new result }
{
    parse_table(s, TableKind::Csgp, rows)
}
