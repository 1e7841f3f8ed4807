// Whether two meanings are the same (document 01, part 8).
ghost use Rattle.std.specs.Prelude.{◌≤◌, length};
ghost use Rattle.base_fields.specs.Answer.{input_limit};
ghost use Rattle.listing_meanings.specs.Meant.{entry_meaning, Means, GivesLike};

use super::MeaningAt;
use base_fields::{Part, bytes_at};
use group_alike::decode_alike;

// Whether two entries decode to the same value: those at one place without a look.
fn entries_like(grouping_type: u32, s: &[u8], a: Part, b: Part) -> bool
    requires { (length s.now ≤ input_limit) × (Means grouping_type s.now (entry_meaning a)) × (Means grouping_type s.now (entry_meaning b)) }
    ensures { GivesLike grouping_type s.now (entry_meaning a) (entry_meaning b) result }
{
    if a.place == b.place {
        if a.size == b.size {
            return true;
        }
    }
    let entry = bytes_at(s, a.place, a.size);
    let other = bytes_at(s, b.place, b.size);
    match decode_alike(grouping_type, entry, other) {
        Ok(same) => same,
        // does not come up: both entries decode
        Err(_) => false,
    }
}

// Whether two meanings are the same, where both decode.
pub fn like(grouping_type: u32, s: &[u8], a: MeaningAt, b: MeaningAt) -> bool
    requires { (length s.now ≤ input_limit) × (Means grouping_type s.now a) × (Means grouping_type s.now b) }
    ensures { GivesLike grouping_type s.now a b result }
{
    match a {
        MeaningAt::Outside => match b {
            MeaningAt::Outside => true,
            MeaningAt::Missing => false,
            MeaningAt::Entry(_) => false,
        },
        MeaningAt::Missing => match b {
            MeaningAt::Outside => false,
            MeaningAt::Missing => true,
            MeaningAt::Entry(_) => false,
        },
        MeaningAt::Entry(part) => match b {
            MeaningAt::Outside => false,
            MeaningAt::Missing => false,
            MeaningAt::Entry(other) => entries_like(grouping_type, s, part, other),
        },
    }
}
