// Whole periods of a pattern: once one has left the last row as it found it, those that follow do the same, and are passed in one step.
ghost use Rattle.std.specs.Prelude.{◌≡◌, ◌+◌, ◌*◌, ◌≤◌, ◌<◌};
ghost use Rattle.table_replay.specs.Periods.{Repeats, GivesPassed};

use crate::enter::Tail;
use base_ids::PatternCount;

// A place in the replay of a pattern: the samples passed, and the rows so far.
#[derive(Clone, Copy)]
pub struct Mark {
    pub sample: PatternCount,
    pub tail: Tail,
}

// How many periods repeat the one since the mark: all that are left whole of `count` samples, where it left the last row as it found it;
// else 0.
fn periods_alike(
    mark: Mark,
    tail: Tail,
    k: PatternCount,
    length: u32,
    count: PatternCount,
) -> PatternCount
    requires { (0 < length) × (k ≤ count) × (k ≡ mark.sample + length) }
    ensures { Repeats mark tail k length count result }
{
    let before = mark.tail;
    if before.rows == 0 {
        return 0;
    }
    if tail.rows <= before.rows {
        return 0;
    }
    if tail.count != before.count {
        return 0;
    }
    if tail.index != before.index {
        return 0;
    }
    (count - k) / length
}

// After k of the `count` samples of a pattern of `length` indices, where some are left: at the end of a period the periods alike are passed,
// and the mark is set anew. Told are the rows, the samples passed and the next mark; none where the periods' rows have no record left.
pub fn pass_periods(
    mark: Mark,
    tail: Tail,
    k: PatternCount,
    length: u32,
    count: PatternCount,
    room: usize,
) -> Option<(Tail, PatternCount, Mark)>
    requires { (0 < length) × (k ≤ count) × (mark.sample ≤ k) × (tail.rows ≤ room) }
    ensures { GivesPassed mark tail k length count room result }
{
    if k == count {
        return Some((tail, k, mark));
    }
    if k - mark.sample != length {
        return Some((tail, k, mark));
    }
    let periods = periods_alike(mark, tail, k, length, count);
    if periods == 0 {
        return Some((tail, k, Mark { sample: k, tail }));
    }
    let before = mark.tail;
    let more = tail.rows - before.rows;
    let many = periods as usize;
    if (room - tail.rows) / more < many {
        return None;
    }
    let sample = k + periods * length;
    let next = Tail {
        rows: tail.rows + many * more,
        count: tail.count,
        index: tail.index,
    };
    Some((next, sample, Mark { sample, tail: next }))
}
