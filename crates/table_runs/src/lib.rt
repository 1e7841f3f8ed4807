// Both sample tables in one view, straight from the payload and without lent rows: their patterns in order, and their samples by runs of one
// index. An sbgp row is a pattern of length 1.
#![tactic(auto)]

mod by_pattern;
mod by_run;

ghost use Rattle.table_runs.specs.Ahead.{GivesHeld};

pub use self::by_pattern::{count_samples, first_pattern, next_pattern};
pub use self::by_run::{first_run, next_run};
use base_fields::refusal::Refusal;
use base_ids::PatternCount;
use table_csgp_head::{CsgpHead, PatternsAt, read_csgp};
use table_front::TableKind;
use table_sbgp::{SbgpHead, read_sbgp};

#[derive(Clone, Copy)]
pub enum SampleTable {
    Rows(SbgpHead),
    Patterns(CsgpHead),
}

// The patterns ahead, and the samples of the first of them that are passed.
#[derive(Clone, Copy)]
pub struct RunCursor {
    pub here: PatternsAt,
    pub sample: PatternCount,
}

// The table of a payload, or the first refusal of its structure.
pub fn read_table(s: &[u8], kind: TableKind) -> Result<SampleTable, Refusal>
    ensures { GivesHeld kind s.now result }
{
    match kind {
        TableKind::Sbgp => {
            let head = read_sbgp(s)?;
            Ok(SampleTable::Rows(head))
        }
        TableKind::Csgp => {
            let head = read_csgp(s)?;
            Ok(SampleTable::Patterns(head))
        }
    }
}
