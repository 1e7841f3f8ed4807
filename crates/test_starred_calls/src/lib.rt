// The starred cases of document 01, and those beside them in its table, as calls of the entries on literal bytes: crates/test_starred has
// the table over the definitions, and the contracts here say what the code answers. crates/test_parts makes the calls, examples/starred.c the same ones through the C functions.
#![tactic(auto)]

pub mod descriptions;
pub mod headers;
pub mod listing;
pub mod tables;

ghost use Rattle.test_starred.specs.Case.{AllHold};
ghost use Rattle.test_starred_calls.specs.All.{answered};

use descriptions::{EntryAnswers, SgpdAnswers, entry_calls, sgpd_calls};
use headers::{HeaderAnswers, header_calls};
use listing::{ListingAnswer, listing_call};
use tables::{CsgpAnswers, SbgpAnswers, csgp_calls, sbgp_calls};

#[derive(Clone, Copy)]
pub struct StarredAnswers {
    pub headers: HeaderAnswers,
    pub sbgp: SbgpAnswers,
    pub csgp: CsgpAnswers,
    pub sgpd: SgpdAnswers,
    pub entries: EntryAnswers,
    pub listing: ListingAnswer,
}

// Every case at once.
pub fn starred() -> StarredAnswers
    ensures { AllHold (answered result) }
{
    StarredAnswers {
        headers: header_calls(),
        sbgp: sbgp_calls(),
        csgp: csgp_calls(),
        sgpd: sgpd_calls(),
        entries: entry_calls(),
        listing: listing_call(),
    }
}
