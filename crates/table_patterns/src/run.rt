// Runs of equal indices within a pattern, so that no work is done for each single sample. Fields of one width hold equal indices where their bits
// are equal, so the bits are compared, and the index is made of them once for a run.
ghost use Rattle.std.specs.Prelude.{◌+◌, ◌*◌, ◌≤◌, ◌<◌, length as size};
ghost use Rattle.base_fields.specs.Answer.{input_limit};
ghost use Rattle.table_patterns.specs.Place.{bit_count, field_number, pattern_in, Stands};
ghost use Rattle.table_patterns.specs.Run.{GivesRun, AlikeIndices, alike, SameWords};

use crate::{PatternAt, index_value};
use base_fields::{late_bits, read_u64};
use base_ids::PatternCount;

// Some samples of one index.
#[derive(Clone, Copy)]
pub struct Run {
    pub count: PatternCount,
    pub index: u32,
}

// The equal fields from number `from` on, before number `end`, with their bits.
fn equal_indices(s: &[u8], width: u32, place: usize, from: u32, end: u32) -> Run
    requires { (width ≤ 32) × (64 ≤ place + width) × (from < end) × (place + width * end ≤ bit_count s.now) × (size s.now ≤ input_limit) }
    ensures { AlikeIndices (field_number width s.now place) from end result }
{
    let step = width as usize;
    let index = late_bits(s, place + step * (from as usize), width);
    for count in 1..end - from {
        if late_bits(s, place + step * ((from + count) as usize), width) != index {
            return Run { count, index };
        }
    }
    Run {
        count: end - from,
        index,
    }
}

// Up to where the eight bytes before `at` come again and again, not past `stop`.
fn equal_words(s: &[u8], at: usize, stop: usize) -> usize
    requires { (8 ≤ at) × (at ≤ stop) × (stop ≤ size s.now) × (size s.now ≤ input_limit) }
    ensures { SameWords s.now at stop result }
{
    let word = read_u64(s, at - 8);
    let mut end = at;
    // A `while`, since the end moves on by 8 bytes a step.
    while end + 8 <= stop {
        if read_u64(s, end) != word {
            return end;
        }
        end += 8;
    }
    end
}

// How many indices are looked at one by one before words are.
const NEAR: u32 = 18;

// How many indices are equal from number `from` on, before number `end`, where the first NEAR are: by whole words, then one by one.
fn far_indices(s: &[u8], width: u32, place: usize, from: u32, end: u32, index: u32) -> u32
    requires { (width ≤ 32) × (64 ≤ place + width) × (place + width * end ≤ bit_count s.now) × (size s.now ≤ input_limit) × AlikeIndices (field_number width s.now place) from end (alike 18 index) }
    ensures { AlikeIndices (field_number width s.now place) from end (alike result index) }
{
    if width < 4 {
        return NEAR;
    }
    if 64 % width != 0 {
        return NEAR;
    }
    let step = width as usize;
    let start = place + step * (from as usize);
    let stop = (place + step * (end as usize)) / 8;
    let words = equal_words(s, (start + step * (NEAR as usize)) / 8, stop);
    let passed = ((8 * words - start) / step) as u32;
    for count in passed..end - from {
        if late_bits(s, start + step * (count as usize), width) != index {
            return count;
        }
    }
    end - from
}

// The same as `equal_indices`, faster where many are equal.
fn alike_indices(s: &[u8], width: u32, place: usize, from: u32, end: u32) -> Run
    requires { (width ≤ 32) × (64 ≤ place + width) × (from < end) × (place + width * end ≤ bit_count s.now) × (size s.now ≤ input_limit) }
    ensures { AlikeIndices (field_number width s.now place) from end result }
{
    let first = equal_indices(s, width, place, from, from + (end - from).min(NEAR));
    if first.count != NEAR {
        return first;
    }
    Run {
        count: far_indices(s, width, place, from, end, first.index),
        index: first.index,
    }
}

// The next samples of one index, from sample k on. They end with the pattern's period, or, where all of its indices are equal, with the
// last sample.
pub fn run_at(s: &[u8], pattern: PatternAt, k: PatternCount) -> Run
    requires { (Stands s.now pattern) × (k < pattern.count) }
    ensures { GivesRun (pattern_in s.now pattern) k result }
{
    let from = k % pattern.length;
    let left = pattern.count - k;
    let end = from + left.min(pattern.length - from);
    let run = alike_indices(s, pattern.width, pattern.indices, from, end);
    let index = index_value(run.index, pattern);
    if run.count == pattern.length {
        return Run { count: left, index };
    }
    Run {
        count: run.count,
        index,
    }
}
