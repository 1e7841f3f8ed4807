// Runs of samples entered one after the other: each joins the stretch in hand, or that one is closed and another begins.
ghost use Rattle.std.specs.Prelude.{◌≡◌, ◌+◌, ◌≤◌, ◌<◌, length};
ghost use Rattle.base_fields.specs.Answer.{input_limit};
ghost use Rattle.group_sgpd.specs.Head.{ReadWhole};
ghost use Rattle.group_sgpd.specs.Marks.{Marks};
ghost use Rattle.table_runs.specs.Patterns.{covered_limit};
ghost use Rattle.listing_meanings.specs.Meant.{Means, HasMeaning};
ghost use Rattle.listing_stretches.specs.Entered.{output_limit, PutsStretch, InHand, Recalls, GivesEntered, joined_by, begun_with};

use super::recall::{remember, remembers};
use super::{Hand, Progress};
use base_ids::{DescriptionIndex, SampleCount};
use group_entries::layout_of;
use group_sgpd::SgpdHead;
use listing_meanings::{MeaningAt, like, meaning_at};
use listing_numbers::put_number;
use listing_values::put_value;

// A stretch's length, its kind and the value.
pub fn put_stretch(
    grouping_type: u32,
    s: &[u8],
    samples: u64,
    meaning: MeaningAt,
    out: &mut [u8],
    at: usize,
) -> usize
    requires { (length s.now ≤ input_limit) × (Means grouping_type s.now meaning) × (at ≤ output_limit) }
    ensures { PutsStretch grouping_type s.now samples meaning at out.old out.new result }
{
    let kind = put_number(out, at, samples);
    match meaning {
        MeaningAt::Outside => put_number(out, kind, 0),
        MeaningAt::Missing => put_number(out, kind, 1),
        MeaningAt::Entry(part) => {
            let value = put_number(out, kind, 2);
            let end = part.place + part.size;
            put_value(layout_of(grouping_type), &s[part.place..end], out, value)
        }
    }
}

// The stretch in hand with some samples more.
fn joined(progress: Progress, count: SampleCount, kept: u32) -> Progress
    requires { progress.hand.samples + count ≤ covered_limit }
    ensures { result ≡ joined_by progress count kept }
{
    let hand = progress.hand;
    let meaning = progress.meaning;
    Progress {
        hand: Hand {
            at: hand.at,
            samples: hand.samples + count as u64,
            index: hand.index,
        },
        meaning,
        kept,
    }
}

// A new stretch in hand: no other index is remembered.
pub fn begun(at: usize, count: SampleCount, index: DescriptionIndex, meaning: MeaningAt) -> Progress
    ensures { result ≡ begun_with at count index.0 meaning }
{
    Progress {
        hand: Hand {
            at,
            samples: count as u64,
            index: index.0,
        },
        meaning,
        kept: 0,
    }
}

// Some samples of one index: equal indices, and those that were found alike, are like without looking.
pub fn enter_run(
    grouping_type: u32,
    s: &[u8],
    head: SgpdHead,
    marks: &[u32; 16],
    memory: &mut [u32; 16],
    out: &mut [u8],
    progress: Progress,
    count: SampleCount,
    index: DescriptionIndex,
) -> Progress
    requires read_whole { (ReadWhole s.now head) × (Marks s.now marks.now) × (HasMeaning grouping_type s.now index.0) }
    requires in_hand { (InHand grouping_type s.now progress) × (Recalls grouping_type s.now progress memory.old) × (0 < count) × (progress.hand.samples + count ≤ covered_limit) × (progress.hand.at ≤ output_limit) }
    ensures { (GivesEntered grouping_type s.now out.old out.new progress count index.0 result) × (Recalls grouping_type s.now result memory.new) }
{
    let hand = progress.hand;
    let kept = progress.kept;
    if hand.index == index.0 {
        return joined(progress, count, kept);
    }
    if remembers(memory, kept, index) {
        return joined(progress, count, kept);
    }
    let meaning = meaning_at(s, head, marks, index);
    let current = progress.meaning;
    if hand.samples == 0 {
        return begun(hand.at, count, index, meaning);
    }
    if like(grouping_type, s, current, meaning) {
        return joined(progress, count, remember(memory, kept, index));
    }
    let at = put_stretch(grouping_type, s, hand.samples, current, out, hand.at);
    begun(at, count, index, meaning)
}
