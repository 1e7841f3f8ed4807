// A table's answer and row count, found by reading only.
ghost use Rattle.std.specs.Prelude.{◌≡◌};
ghost use Rattle.base_fields.specs.Answer.{refused};
ghost use Rattle.base_fields.specs.Refusal.{number};
ghost use Rattle.table_rows.specs.Found.{told_table};
ghost use Rattle.table_sbgp.specs.Sbgp.{parse_sbgp};
ghost use Rattle.table_csgp.specs.Table.{parse_csgp};
ghost use Rattle.table_structs.specs.Table.{parsed_table};
ghost use Rattle.table_structs.specs.Plan.{GivesPlan};

use crate::stream::{RowCursor, first_row};
use base_fields::refusal::Refusal;
use table_csgp::measure::measure;
use table_csgp_head::{PatternsAt, read_csgp};
use table_front::TableKind;
use table_rows::SampleToGroup;
use table_runs::{RunCursor, SampleTable};
use table_sbgp::{SbgpHead, read_sbgp};

// The answer, and the rows that are written: their number, and where they begin.
#[derive(Clone, Copy)]
pub struct Plan {
    pub answer: Result<SampleToGroup, Refusal>,
    pub count: usize,
    pub table: SampleTable,
    pub first: RowCursor,
}

// A refusal: no row is written.
fn no_rows(refusal: Refusal) -> Plan
    ensures { (told_table result.answer ≡ refused (number refusal)) × (result.count ≡ 0) }
{
    Plan {
        answer: Err(refusal),
        count: 0,
        table: SampleTable::Rows(SbgpHead {
            grouping_type: 0,
            grouping_type_parameter: 0,
            first: 0,
            entry_count: 0,
        }),
        first: RowCursor {
            run: RunCursor {
                here: PatternsAt {
                    left: 0,
                    pair: 0,
                    indices: 0,
                },
                sample: 0,
            },
            count: 0,
            index: 0,
        },
    }
}

fn plan_sbgp(s: &[u8], room: usize) -> Plan
    ensures { GivesPlan (parse_sbgp s.now room) s.now room result }
{
    match read_sbgp(s) {
        Ok(head) => {
            let count = head.entry_count as usize;
            if room < count {
                return no_rows(Refusal::NoRecordLeft);
            }
            let table = SampleTable::Rows(head);
            Plan {
                answer: Ok(SampleToGroup {
                    grouping_type: head.grouping_type,
                    grouping_type_parameter: head.grouping_type_parameter,
                    entry_count: count,
                }),
                count,
                table,
                first: first_row(s, table),
            }
        }
        Err(refusal) => no_rows(refusal),
    }
}

fn plan_csgp(s: &[u8], room: usize) -> Plan
    ensures { GivesPlan (parse_csgp s.now room) s.now room result }
{
    match read_csgp(s) {
        Ok(head) => match measure(s, head, room) {
            Ok(count) => {
                let table = SampleTable::Patterns(head);
                Plan {
                    answer: Ok(SampleToGroup {
                        grouping_type: head.grouping_type,
                        grouping_type_parameter: head.grouping_type_parameter,
                        entry_count: count,
                    }),
                    count,
                    table,
                    first: first_row(s, table),
                }
            }
            Err(refusal) => no_rows(refusal),
        },
        Err(refusal) => no_rows(refusal),
    }
}

// 29 comes last, where there are fewer records than rows.
pub(crate) fn plan_table(s: &[u8], kind: TableKind, room: usize) -> Plan
    ensures { GivesPlan (parsed_table kind s.now room) s.now room result }
{
    match kind {
        TableKind::Sbgp => plan_sbgp(s, room),
        TableKind::Csgp => plan_csgp(s, room),
    }
}
