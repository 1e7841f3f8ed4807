// The head of a payload, and the checks that all of its patterns are there.
ghost use Rattle.std.specs.Prelude.{◌≡◌, ◌/◌, ◌%◌, ◌≤◌, eqb};
ghost use Rattle.table_front.specs.Told.{FrontOf};
ghost use Rattle.table_front.specs.declared.TableKind.TheVariants.{Csgp};
ghost use Rattle.table_patterns.specs.Place.{bit_count};
ghost use Rattle.table_csgp_head.specs.Csgp.{width_of, index_place};
ghost use Rattle.table_csgp_head.specs.Head.{Fixed, GivesFixed, GivesPairs, GivesPatterns, GivesCsgp};

use super::indices::{can_be_large, check_indices};
use super::walk::length_at;
use super::{CsgpHead, first_pattern, patterns_behind};
use base_fields::read_u8;
use base_fields::refusal::Refusal;
use table_front::{TableFront, TableKind, read_front};

// The width in bits that a code of two bits names.
fn field_width(code: u32) -> u32
    ensures { (result ≡ width_of code) × (4 ≤ result) × (result ≤ 32) }
{
    match code {
        0 => 4,
        1 => 8,
        2 => 16,
        _ => 32,
    }
}

// Whether flag bit 7 is set: indices have marks.
fn has_marks(flags: u32) -> bool
    ensures { result ≡ eqb (flags / 128 % 2) 1 }
{
    match flags / 128 % 2 {
        1 => true,
        _ => false,
    }
}

// The fields behind the front: the widths and the places of the bit stream.
fn head_of(s: &[u8], front: TableFront) -> CsgpHead
    requires { FrontOf Csgp s.now front }
    ensures { Fixed s.now result }
{
    let flags = read_u8(s, 3) as u32;
    let length_width = field_width(flags / 16 % 4);
    let count_width = field_width(flags / 4 % 4);
    let pairs = 8 * front.first;
    CsgpHead {
        grouping_type: front.grouping_type,
        grouping_type_parameter: front.grouping_type_parameter,
        pattern_count: front.count,
        index_width: field_width(flags % 4),
        count_width,
        length_width,
        pairs,
        indices: pairs + (front.count as usize) * ((length_width + count_width) as usize),
        marks: has_marks(flags),
    }
}

// The fixed fields, or the first that is missing.
fn fixed_fields(s: &[u8]) -> Result<CsgpHead, Refusal>
    ensures { GivesFixed s.now result }
{
    let front = read_front(s, TableKind::Csgp)?;
    Ok(head_of(s, front))
}

// The pair table, in one step: all of it is there, or the first pair that is not is cut in its length or in its count.
fn check_pairs(s: &[u8], head: CsgpHead) -> Result<(), Refusal>
    requires { Fixed s.now head }
    ensures { GivesPairs s.now result }
{
    let bits = 8 * s.len();
    if head.indices <= bits {
        return Ok(());
    }
    let left = (bits - head.pairs) % ((head.length_width + head.count_width) as usize);
    if left < head.length_width as usize {
        return Err(Refusal::PatternLengthCut);
    }
    Err(Refusal::PatternCountCut)
}

// The patterns, where the pair table is there: the first that has no index, or an index that is cut or too large.
fn check_patterns(s: &[u8], head: CsgpHead) -> Result<(), Refusal>
    requires { (Fixed s.now head) × (index_place s.now ≤ bit_count s.now) }
    ensures { GivesPatterns s.now result }
{
    let large = can_be_large(head);
    let mut here = first_pattern(head);
    while 0 < here.left {
        let length = length_at(s, head, here.pair);
        if length == 0 {
            return Err(Refusal::PatternLengthZero);
        }
        check_indices(s, head, large, here.indices, length)?;
        here = patterns_behind(head, here, length);
    }
    Ok(())
}

// The head of a payload whose patterns are all there, or the first refusal.
pub fn read_csgp(s: &[u8]) -> Result<CsgpHead, Refusal>
    ensures { GivesCsgp s.now result }
{
    let head = fixed_fields(s)?;
    check_pairs(s, head)?;
    check_patterns(s, head)?;
    Ok(head)
}
