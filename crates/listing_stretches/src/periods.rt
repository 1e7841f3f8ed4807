// Whole periods of a pattern, passed in one step.
ghost use Rattle.std.specs.Prelude.{◌≡◌, ◌+◌, ◌*◌, ◌≤◌, ◌<◌};
ghost use Rattle.table_runs.specs.Patterns.{covered_limit};
ghost use Rattle.listing_stretches.specs.Passed.{GivesRepeated, GivesPassed, lengthened};

use super::{Hand, Mark};
use base_ids::PatternCount;

// Periods that leave the stretch in hand as it is and add as many bytes each. None where the output would pass the limit.
fn repeat_periods(
    hand: Hand,
    added: usize,
    k: PatternCount,
    length: u32,
    periods: u32,
    limit: usize,
) -> Option<(Hand, PatternCount, Mark)>
    requires { (hand.at ≤ limit) × (k + periods * length < 4294967296) }
    ensures { GivesRepeated hand added k length periods limit result }
{
    let times = periods as usize;
    if 0 < added {
        if (limit - hand.at) / added < times {
            return None;
        }
    }
    let next = Hand {
        at: hand.at + times * added,
        samples: hand.samples,
        index: hand.index,
    };
    let sample = k + periods * length;
    Some((next, sample, Mark { sample, hand: next }))
}

// The stretch in hand, longer by whole periods.
fn lengthen(hand: Hand, length: u32, periods: u32) -> Hand
    requires { (hand.samples ≤ covered_limit) × (periods * length < 4294967296) }
    ensures { result ≡ lengthened hand length periods }
{
    Hand {
        at: hand.at,
        samples: hand.samples + (periods * length) as u64,
        index: hand.index,
    }
}

// At the end of a period: where it left the stretch in hand as it found it, each whole period that is left adds the same bytes; where
// all of it joined that stretch, so do they. What is in hand afterwards, how many samples of the pattern are passed, and the mark; none
// where the output would pass the limit.
pub fn pass_periods(
    mark: Mark,
    hand: Hand,
    k: PatternCount,
    length: u32,
    count: PatternCount,
    limit: usize,
) -> Option<(Hand, PatternCount, Mark)>
    requires sample_le_k { (mark.sample ≤ k) × (k ≤ count) × (0 < length) }
    requires at_le_at { (mark.hand.at ≤ hand.at) × (hand.at ≤ limit) × (hand.samples ≤ covered_limit) }
    ensures { GivesPassed mark hand k length count limit result }
{
    if k - mark.sample != length {
        return Some((hand, k, mark));
    }
    let periods = (count - k) / length;
    let marked = mark.hand;
    if hand.samples == marked.samples {
        if hand.index == marked.index {
            return repeat_periods(hand, hand.at - marked.at, k, length, periods, limit);
        }
    }
    if 0 < marked.samples {
        if hand.at == marked.at {
            let next = lengthen(hand, length, periods);
            let sample = k + periods * length;
            return Some((next, sample, Mark { sample, hand: next }));
        }
    }
    Some((hand, k, Mark { sample: k, hand }))
}
