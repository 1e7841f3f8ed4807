// The check of a pattern's indices: the first that is cut (27) or too large (67).
ghost use Rattle.std.specs.Prelude.{◌≡◌, ◌+◌, ◌*◌, ◌≤◌, false, eqb, length as size};
ghost use Rattle.base_fields.specs.Answer.{choose, input_limit};
ghost use Rattle.table_patterns.specs.Place.{bit_count};
ghost use Rattle.table_csgp_head.specs.Csgp.{index_width_of};
ghost use Rattle.table_csgp_head.specs.Head.{Fixed};
ghost use Rattle.table_csgp_head.specs.Indices.{can_be_large_by, GivesHighest, GivesLarge, IndicesThere, GivesIndices};

use super::CsgpHead;
use base_fields::read_u8;
use base_fields::refusal::Refusal;

// Whether an index can be too large: one of 32 bits without a mark.
pub(crate) fn can_be_large(head: CsgpHead) -> bool
    ensures { result ≡ choose head.marks false (eqb head.index_width 32) }
{
    if head.marks {
        return false;
    }
    head.index_width == 32
}

// Whether one of n fields of 32 bits from a bit place on has its highest bit. A look at one byte for each field tells.
fn has_highest(s: &[u8], place: usize, n: u32) -> bool
    requires { (place + 32 * n ≤ bit_count s.now) × (size s.now ≤ input_limit) }
    ensures { GivesHighest s.now place n result }
{
    let behind = 7 - (place % 8) as u32;
    let mut at = place / 8;
    for i in 0..n {
        if (read_u8(s, at) >> behind) % 2 == 1 {
            return true;
        }
        at += 4;
    }
    false
}

// Whether one of the n indices from a bit place on is too large.
fn has_large(s: &[u8], large: bool, place: usize, n: u32) -> bool
    requires { (large ≡ can_be_large_by s.now) × (place + index_width_of s.now * n ≤ bit_count s.now) × (size s.now ≤ input_limit) }
    ensures { GivesLarge s.now place n result }
{
    if large {
        return has_highest(s, place, n);
    }
    false
}

// How many of the `length` indices from a bit place on are there.
fn indices_there(s: &[u8], head: CsgpHead, place: usize, length: u32) -> u32
    requires { (Fixed s.now head) × (place ≤ bit_count s.now) }
    ensures { IndicesThere s.now place length result }
{
    let width = head.index_width as usize;
    let left = 8 * s.len() - place;
    if left < width * (length as usize) {
        return (left / width) as u32;
    }
    length
}

// The indices of a pattern. `large` tells whether one can be too large.
pub(crate) fn check_indices(
    s: &[u8],
    head: CsgpHead,
    large: bool,
    place: usize,
    length: u32,
) -> Result<(), Refusal>
    requires { (Fixed s.now head) × (large ≡ can_be_large_by s.now) × (place ≤ bit_count s.now) }
    ensures { GivesIndices s.now place length result }
{
    let there = indices_there(s, head, place, length);
    if has_large(s, large, place, there) {
        return Err(Refusal::IndexTooLarge);
    }
    if there < length {
        return Err(Refusal::IndexCut);
    }
    Ok(())
}
