// What a listing begins and ends with.
ghost use Rattle.std.specs.Prelude.{◌≤◌};
ghost use Rattle.group_sgpd.specs.Head.{ReadWhole};
ghost use Rattle.group_sgpd.specs.declared.SgpdHead.{SgpdHead};
ghost use Rattle.listing_stretches.specs.Entered.{output_limit, InHand, GivesBegun, GivesClosed};

use super::enter::begun;
use super::{Progress, put_stretch};
use base_ids::DescriptionIndex;
use listing_meanings::MeaningAt;
use listing_numbers::{put_number, put_type};

// The type bytes and the covered samples; nothing is in hand.
pub fn begin_listing(grouping_type: u32, covered: u64, out: &mut [u8]) -> Progress
    ensures { GivesBegun grouping_type covered out.old out.new result }
{
    let behind_type = put_type(out, 0, grouping_type);
    let at = put_number(out, behind_type, covered);
    begun(at, 0, DescriptionIndex(0), MeaningAt::Outside)
}

// The stretch in hand behind the last sample, if there is one.
pub fn close_stretch(grouping_type: u32, s: &[u8], out: &mut [u8], progress: Progress) -> usize
    requires { ((h : SgpdHead) × ReadWhole s.now h) × (InHand grouping_type s.now progress) × (progress.hand.at ≤ output_limit) }
    ensures { GivesClosed grouping_type s.now out.old out.new progress result }
{
    let hand = progress.hand;
    let meaning = progress.meaning;
    if hand.samples == 0 {
        return hand.at;
    }
    put_stretch(grouping_type, s, hand.samples, meaning, out, hand.at)
}
