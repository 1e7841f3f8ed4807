// A pattern of a sample table in its payload: the index at a position, and its samples by runs of one index. An sbgp row is a pattern of
// length 1.
#![tactic(auto)]

pub mod run;

ghost use Rattle.std.specs.Prelude.{◌≡◌, ◌+◌, ◌^◌, ◌≤◌, ◌<◌, min, get_or};
ghost use Rattle.base_fields.specs.Number.{field_bound};
ghost use Rattle.table_patterns.specs.Place.{index_value, index_field, bit_count, pattern_in, Stands};

use base_fields::late_bits;
use base_ids::{DescriptionIndex, LOCAL_MARK, PatternCount};

#[derive(Clone, Copy)]
pub struct PatternAt {
    // How many indices it has.
    pub length: u32,
    // How many samples it covers.
    pub count: PatternCount,
    // The bits of an index, and the bit place of the first one.
    pub width: u32,
    pub indices: usize,
    // Whether the highest bit of an index is a mark.
    pub marks: bool,
}

// The index that the bits of one of a pattern's fields hold: where there are marks, the highest bit goes to bit 31.
fn index_value(bits: u32, pattern: PatternAt) -> u32
    requires { (1 ≤ pattern.width) × (pattern.width ≤ 32) × (bits < 2 ^ pattern.width) }
    ensures { (result ≡ index_value pattern.marks pattern.width bits) × (result < field_bound) }
{
    if pattern.marks {
        let low = 1u32 << (pattern.width - 1);
        return bits / low * LOCAL_MARK + bits % low;
    }
    bits
}

// The index at a bit place, which is that of one of a pattern's fields.
pub fn read_index(s: &[u8], at: usize, pattern: PatternAt) -> u32
    requires { (Stands s.now pattern) × (pattern.indices ≤ at) × (at + pattern.width ≤ bit_count s.now) }
    ensures { (result ≡ index_field pattern.marks pattern.width s.now at) × (result < field_bound) }
{
    index_value(late_bits(s, at, pattern.width), pattern)
}

// The index at a position, counted from 0.
pub fn index_at(s: &[u8], pattern: PatternAt, position: u32) -> DescriptionIndex
    requires { (Stands s.now pattern) × (position < pattern.length) }
    ensures { result.0 ≡ get_or (pattern_in s.now pattern).indices position 0 }
{
    let at = pattern.indices + (pattern.width as usize) * (position as usize);
    DescriptionIndex(read_index(s, at, pattern))
}

// How many positions are used by a sample: the others' indices mean nothing.
pub fn used_positions(pattern: PatternAt) -> u32
    ensures { result ≡ min pattern.length pattern.count }
{
    if pattern.length < pattern.count {
        pattern.length
    } else {
        pattern.count
    }
}
