// The compact sample-to-group atom csgp (document 01, part 4).
#![tactic(auto)]

pub mod fill;
pub mod measure;

ghost use Rattle.table_rows.specs.Row.{records_in};
ghost use Rattle.table_rows.specs.Found.{GivesTable};
ghost use Rattle.table_csgp.specs.Table.{parse_csgp};

use base_fields::refusal::Refusal;
use base_ids::{RECORD_NUMBERS, RowNumber};
use fill::fill;
use measure::measure;
use table_csgp_head::read_csgp;
use table_rows::SampleToGroup;

// Reads a csgp payload and writes the rows of its samples in front of the lent run. Nothing is written on refusal.
pub fn parse_csgp(s: &[u8], rows: &mut [RowNumber]) -> Result<SampleToGroup, Refusal>
    ensures { GivesTable (parse_csgp s.now (records_in rows.old)) rows.old rows.new result }
{
    let head = read_csgp(s)?;
    let entry_count = measure(s, head, rows.len() / RECORD_NUMBERS)?;
    fill(s, head, rows);
    Ok(SampleToGroup {
        grouping_type: head.grouping_type,
        grouping_type_parameter: head.grouping_type_parameter,
        entry_count,
    })
}
