// Samples entered one by one within a period, with no more work than an index takes: for patterns whose runs are short.
ghost use Rattle.std.specs.Prelude.{◌%◌, ◌≤◌, ◌<◌};
ghost use Rattle.table_rows.specs.Row.{records_in};
ghost use Rattle.table_patterns.specs.Place.{pattern_in, Stands};
ghost use Rattle.table_replay.specs.Enter.{GivesSingle, LastOf};
ghost use Rattle.table_replay.specs.Within.{Singly, SinglyWritten};

use crate::enter::Tail;
use crate::step::ReplayState;
use base_ids::{PatternCount, RECORD_NUMBERS, RowNumber, SampleCount};
use table_patterns::{PatternAt, read_index};
use table_rows::record::put_row;

// How long a run may get before it is left for whole words.
const SHORT: SampleCount = 16;

// One sample joins the last row or begins a new one: none for a longer run, or where no record is left.
fn enter_single(tail: Tail, room: usize, index: u32) -> Option<Tail>
    ensures { GivesSingle room tail index result }
{
    if tail.index == index {
        if tail.rows == 0 {
            return None;
        }
        if SHORT < tail.count {
            return None;
        }
        return Some(Tail {
            rows: tail.rows,
            count: tail.count + 1,
            index,
        });
    }
    if room <= tail.rows {
        return None;
    }
    Some(Tail {
        rows: tail.rows + 1,
        count: 1,
        index,
    })
}

// The last sample of the period that sample k is in, or of the pattern. It has `turn` samples of its period before it.
fn last_of_period(pattern: PatternAt, k: PatternCount, turn: u32) -> PatternCount
    requires { (k < pattern.count) × (turn < pattern.length) }
    ensures { LastOf pattern.length pattern.count k turn result }
{
    let ahead = pattern.length - turn;
    if pattern.count - k < ahead {
        return pattern.count - 1;
    }
    k + (ahead - 1)
}

// Enters samples within a period, up to its last one, while they begin rows or runs are short. The first and the last of a period are left for
// runs: there a uniform pattern is found, and whole periods are passed.
pub fn enter_singly(s: &[u8], pattern: PatternAt, state: ReplayState, room: usize) -> ReplayState
    requires { Stands s.now pattern }
    ensures { Singly (pattern_in s.now pattern) room state result }
{
    if pattern.count <= state.sample {
        return state;
    }
    let turn = state.sample % pattern.length;
    if turn == 0 {
        return state;
    }
    let mark = state.mark;
    let step = pattern.width as usize;
    let last = last_of_period(pattern, state.sample, turn);
    let mut at = pattern.indices + step * (turn as usize);
    let mut tail = state.tail;
    for sample in state.sample..last {
        let index = read_index(s, at, pattern);
        tail = match enter_single(tail, room, index) {
            Some(next) => next,
            None => return ReplayState { tail, sample, mark },
        };
        at += step;
    }
    ReplayState {
        tail,
        sample: last,
        mark,
    }
}

// The same, with their rows written.
pub fn write_singly(
    s: &[u8],
    pattern: PatternAt,
    state: ReplayState,
    rows: &mut [RowNumber],
) -> ReplayState
    requires { (Stands s.now pattern) × (state.tail.rows ≤ records_in rows.old) }
    ensures { SinglyWritten (pattern_in s.now pattern) (records_in rows.old) state result rows.old rows.new }
{
    if pattern.count <= state.sample {
        return state;
    }
    let turn = state.sample % pattern.length;
    if turn == 0 {
        return state;
    }
    let room = rows.len() / RECORD_NUMBERS;
    let mark = state.mark;
    let step = pattern.width as usize;
    let last = last_of_period(pattern, state.sample, turn);
    let mut at = pattern.indices + step * (turn as usize);
    let mut tail = state.tail;
    for sample in state.sample..last {
        let index = read_index(s, at, pattern);
        tail = match enter_single(tail, room, index) {
            Some(next) => next,
            None => return ReplayState { tail, sample, mark },
        };
        put_row(rows, tail.rows - 1, tail.count, tail.index);
        at += step;
    }
    ReplayState {
        tail,
        sample: last,
        mark,
    }
}
