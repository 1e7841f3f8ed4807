// What a description index means in an sgpd's payload, whether two meanings are like, and the check of the entries that samples use
// (document 01, part 8).
#![tactic(auto)]

mod check;
mod likeness;

ghost use Rattle.group_sgpd.specs.Head.{ReadWhole};
ghost use Rattle.group_sgpd.specs.Marks.{Marks};
ghost use Rattle.listing_meanings.specs.Meant.{GivesMeaning};

use base_fields::Part;
use base_ids::DescriptionIndex;
pub use check::check_used;
use group_sgpd::{SgpdHead, marked_entry};
pub use likeness::like;

// What an index means: no entry (index 0), an index past the entries, or an entry's place and length in the sgpd's payload.
#[derive(Clone, Copy)]
pub enum MeaningAt {
    Outside,
    Missing,
    Entry(Part),
}

// The meaning of an index, from the landmarks of a payload that was read whole.
pub fn meaning_at(s: &[u8], head: SgpdHead, marks: &[u32; 16], index: DescriptionIndex) -> MeaningAt
    requires { (ReadWhole s.now head) × (Marks s.now marks.now) }
    ensures { GivesMeaning s.now index.0 result }
{
    if index.0 == 0 {
        return MeaningAt::Outside;
    }
    match marked_entry(s, head, marks, index) {
        Ok(Some(part)) => MeaningAt::Entry(part),
        Ok(None) => MeaningAt::Missing,
        // does not come up: the payload was read whole
        Err(_) => MeaningAt::Missing,
    }
}
