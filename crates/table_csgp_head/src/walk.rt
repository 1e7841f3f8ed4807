// From pattern to pattern.
ghost use Rattle.std.specs.Prelude.{◌≡◌, ◌≤◌, ◌<◌};
ghost use Rattle.table_patterns.specs.Place.{bit_count};
ghost use Rattle.table_csgp_head.specs.Head.{Fixed, pair_read, pair_of, pair_behind, place_at, all_patterns, patterns_behind, Near};

use super::{CsgpHead, PatternPair, PatternsAt};
use base_fields::read_bits;
use table_patterns::PatternAt;

// All patterns of a payload.
pub fn first_pattern(head: CsgpHead) -> PatternsAt
    ensures { result ≡ all_patterns head }
{
    PatternsAt {
        left: head.pattern_count,
        pair: head.pairs,
        indices: head.indices,
    }
}

// The length of the pattern whose pair stands at a bit place.
pub(crate) fn length_at(s: &[u8], head: CsgpHead, at: usize) -> u32
    requires { (Fixed s.now head) × (pair_behind s.now at ≤ bit_count s.now) }
    ensures { result ≡ (pair_read s.now at).pattern_length }
{
    read_bits(s, at, head.length_width)
}

// The length and the count of the pattern whose pair stands at a bit place.
pub(crate) fn pair_at(s: &[u8], head: CsgpHead, at: usize) -> PatternPair
    requires { (Fixed s.now head) × (pair_behind s.now at ≤ bit_count s.now) }
    ensures { result ≡ pair_of s.now at }
{
    PatternPair {
        length: length_at(s, head, at),
        count: read_bits(s, at + head.length_width as usize, head.count_width),
    }
}

// The first of the patterns ahead.
pub fn pattern_at(s: &[u8], head: CsgpHead, here: PatternsAt) -> PatternAt
    requires { (Fixed s.now head) × (pair_behind s.now here.pair ≤ bit_count s.now) }
    ensures { result ≡ place_at s.now here.pair here.indices }
{
    let pair = pair_at(s, head, here.pair);
    PatternAt {
        length: pair.length,
        count: pair.count,
        width: head.index_width,
        indices: here.indices,
        marks: head.marks,
    }
}

// The patterns behind the first, which has `length` indices.
pub fn patterns_behind(head: CsgpHead, here: PatternsAt, length: u32) -> PatternsAt
    requires { (0 < here.left) × Near (patterns_behind head here length) }
    ensures { result ≡ patterns_behind head here length }
{
    PatternsAt {
        left: here.left - 1,
        pair: here.pair + head.length_width as usize + head.count_width as usize,
        indices: here.indices + (head.index_width as usize) * (length as usize),
    }
}
