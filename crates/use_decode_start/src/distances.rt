// The distance of a description index.
ghost use Rattle.std.specs.Prelude.{◌≡◌, ◌≤◌, length};
ghost use Rattle.base_fields.specs.Answer.{given, and_then, input_limit};
ghost use Rattle.group_sgpd.specs.Head.{ReadWhole};
ghost use Rattle.group_sgpd.specs.Marks.{Marks};
ghost use Rattle.group_entries.specs.Decoded.{signed16};
ghost use Rattle.group_entries.specs.Layout.{decode_as};
ghost use Rattle.listing_meanings.specs.Meant.{meant_at, InsideAt, meaning_in};
ghost use Rattle.std.proofs.Math.Option.{some};
ghost use Rattle.use_decode_start.specs.Start.{distance_of_value, distance_of_meaning};
ghost use Rattle.use_decode_start.specs.Inner.{told_distance, told_decoded};

use super::Distance;
use base_fields::refusal::Refusal;
use base_fields::{bytes_at, read_u16};
use base_ids::DescriptionIndex;
use group_alike::front_of;
use group_entries::{EntryLayout, layout_of};
use group_sgpd::SgpdHead;
use listing_meanings::{MeaningAt, meaning_at};

// The signed number that 16 bits hold.
fn signed_distance(x: u16) -> Distance
    ensures { told_distance result ≡ some (signed16 x) }
{
    if x < 32768 {
        Distance::Ahead(x)
    } else {
        Distance::Behind(65535 - x)
    }
}

// The distance of an entry, by its layout.
fn entry_distance(layout: EntryLayout, entry: &[u8]) -> Result<Distance, Refusal>
    requires { length entry.now ≤ input_limit }
    ensures { told_decoded result ≡ and_then (decode_as layout entry.now) (λ v. given (distance_of_value v)) }
{
    front_of(layout, entry)?;
    let distance = match layout {
        EntryLayout::Roll => signed_distance(read_u16(entry, 0)),
        EntryLayout::Rap => Distance::Ahead(0),
        EntryLayout::Tele => Distance::Nothing,
        EntryLayout::Sap => Distance::Nothing,
        EntryLayout::Rash => Distance::Nothing,
        EntryLayout::Alst => Distance::Nothing,
        EntryLayout::Raw => Distance::Nothing,
    };
    Ok(distance)
}

// The distance of a meaning.
fn meaning_distance(grouping_type: u32, s: &[u8], meaning: MeaningAt) -> Result<Distance, Refusal>
    requires { (length s.now ≤ input_limit) × (InsideAt s.now meaning) }
    ensures { told_decoded result ≡ and_then (meant_at grouping_type s.now meaning) (λ m. given (distance_of_meaning m)) }
{
    match meaning {
        MeaningAt::Outside => Ok(Distance::Nothing),
        MeaningAt::Missing => Ok(Distance::Nothing),
        MeaningAt::Entry(part) => {
            entry_distance(layout_of(grouping_type), bytes_at(s, part.place, part.size))
        }
    }
}

// The distance of an index, or its decoder's refusal.
pub fn index_distance(
    s: &[u8],
    head: SgpdHead,
    marks: &[u32; 16],
    grouping_type: u32,
    index: DescriptionIndex,
) -> Result<Distance, Refusal>
    requires { (ReadWhole s.now head) × (Marks s.now marks.now) }
    ensures { told_decoded result ≡ and_then (meaning_in grouping_type s.now index.0) (λ m. given (distance_of_meaning m)) }
{
    meaning_distance(grouping_type, s, meaning_at(s, head, marks, index))
}
