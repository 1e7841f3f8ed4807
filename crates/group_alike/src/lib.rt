// Whether two entries of one grouping type decode to the same value (document 01, part 8: like meanings).
#![tactic(auto)]

ghost use Rattle.std.specs.Prelude.{◌≡◌, ℕ, ◌+◌, ◌≤◌, eqb, length};
ghost use Rattle.base_fields.specs.Answer.{given, and_then, input_limit};
ghost use Rattle.base_fields.specs.Refusal.{told_value};
ghost use Rattle.group_alike.specs.Front.{AllBytes, low_first, significant_of, GivesSame, ZeroWhereSame, Short, LeftOf, FrontIs, front_size};
ghost use Rattle.group_entries.specs.Layout.{decode_as};
ghost use Rattle.group_entries.specs.declared.EntryLayout.TheVariants.{Roll, Rash, Alst};
ghost use Rattle.group_alike.specs.Alike.{alike};

use base_fields::refusal::Refusal;
use base_fields::{INPUT_LIMIT, read_u8, read_u32};
use group_entries::EntryLayout;

// What two entries of a layout still have to be compared by: nothing, or so many bytes at the front of both.
#[derive(Clone, Copy)]
enum Left {
    Told(bool),
    Bytes(usize),
}

// The front of a rash: its points and what stands behind them.
fn rash_front(s: &[u8]) -> Result<usize, Refusal>
    requires { length s.now ≤ input_limit }
    ensures { FrontIs (told_value result) Rash s.now }
{
    let rash = group_entries::decode_rash(s)?;
    Ok(group_entries::rash_points_end(rash.operation_point_count) + 9)
}

// The front of an alst: all of it.
fn alst_front(s: &[u8]) -> Result<usize, Refusal>
    requires { length s.now ≤ input_limit }
    ensures { FrontIs (told_value result) Alst s.now }
{
    group_entries::decode_alst(s)?;
    Ok(s.len())
}

// The front of an entry by its layout's decoder.
pub fn front_of(layout: EntryLayout, s: &[u8]) -> Result<usize, Refusal>
    requires { length s.now ≤ input_limit }
    ensures { told_value result ≡ and_then (decode_as layout s.now) (λ v. given (front_size layout s.now)) }
{
    match layout {
        EntryLayout::Roll => {
            group_entries::decode_roll(s)?;
            Ok(2)
        }
        EntryLayout::Rap => {
            group_entries::decode_rap(s)?;
            Ok(1)
        }
        EntryLayout::Tele => {
            group_entries::decode_tele(s)?;
            Ok(1)
        }
        EntryLayout::Sap => {
            group_entries::decode_sap(s)?;
            Ok(1)
        }
        EntryLayout::Rash => rash_front(s),
        EntryLayout::Alst => alst_front(s),
        EntryLayout::Raw => Ok(s.len()),
    }
}

// Eight bytes as a number, the first one lowest, so that the compiler makes one load of it.
fn eight_at(s: &[u8], at: usize) -> u64
    requires { at + 8 ≤ length s.now }
    ensures { result ≡ low_first 8 s.now at 0 }
{
    let low = (read_u8(s, at) as u64)
        + (read_u8(s, at + 1) as u64) * 256
        + (read_u8(s, at + 2) as u64) * 65536
        + (read_u8(s, at + 3) as u64) * 16777216;
    let high = (read_u8(s, at + 4) as u64) * 4294967296
        + (read_u8(s, at + 5) as u64) * 1099511627776
        + (read_u8(s, at + 6) as u64) * 281474976710656
        + (read_u8(s, at + 7) as u64) * 72057594037927936;
    low + high
}

// The bits in which eight bytes from a place differ.
fn differing_8(a: &[u8], b: &[u8], at: usize) -> u64
    requires { (at + 8 ≤ length a.now) × (at + 8 ≤ length b.now) }
    ensures { ZeroWhereSame a.now b.now at 8 result }
{
    eight_at(a, at) ^ eight_at(b, at)
}

// The bits in which the eights of 32 bytes differ.
fn differing_32(a: &[u8], b: &[u8], at: usize) -> u64
    requires { (at + 32 ≤ length a.now) × (at + 32 ≤ length b.now) }
    ensures { ZeroWhereSame a.now b.now at 32 result }
{
    differing_8(a, b, at)
        | differing_8(a, b, at + 8)
        | differing_8(a, b, at + 16)
        | differing_8(a, b, at + 24)
}

// Those of 128 bytes: without a branch between them, so that the compiler can compare several eights in one instruction.
fn differing_128(a: &[u8], b: &[u8], at: usize) -> u64
    requires { (at + 128 ≤ length a.now) × (at + 128 ≤ length b.now) }
    ensures { ZeroWhereSame a.now b.now at 128 result }
{
    differing_32(a, b, at)
        | differing_32(a, b, at + 32)
        | differing_32(a, b, at + 64)
        | differing_32(a, b, at + 96)
}

// Whether the first n bytes are the same, n at least 128: block by block, then the last 128, some of which may have been looked at.
fn same_blocks(a: &[u8], b: &[u8], n: usize) -> bool
    requires { (128 ≤ n) × (n ≤ length a.now) × (n ≤ length b.now) }
    ensures { GivesSame a.now b.now n result }
{
    let last = n - 128;
    let mut i: usize = 0;
    // no `for`: a step passes 128 bytes
    while i < last {
        if differing_128(a, b, i) != 0 {
            return false;
        }
        i += 128;
    }
    differing_128(a, b, last) == 0
}

// The same for 8 to 128 bytes: from both ends, so that there is no loop; the two may overlap.
fn same_ends(a: &[u8], b: &[u8], n: usize) -> bool
    requires { (8 ≤ n) × (n ≤ 128) × (n ≤ length a.now) × (n ≤ length b.now) }
    ensures { GivesSame a.now b.now n result }
{
    if 64 <= n {
        let front = differing_32(a, b, 0) | differing_32(a, b, 32);
        let back = differing_32(a, b, n - 64) | differing_32(a, b, n - 32);
        return front | back == 0;
    }
    if 32 <= n {
        return differing_32(a, b, 0) | differing_32(a, b, n - 32) == 0;
    }
    if 16 <= n {
        let front = differing_8(a, b, 0) | differing_8(a, b, 8);
        let back = differing_8(a, b, n - 16) | differing_8(a, b, n - 8);
        return front | back == 0;
    }
    differing_8(a, b, 0) | differing_8(a, b, n - 8) == 0
}

// The same for 4 to 8 bytes.
fn same_fours(a: &[u8], b: &[u8], n: usize) -> bool
    requires { (4 ≤ n) × (n ≤ 8) × (n ≤ length a.now) × (n ≤ length b.now) }
    ensures { GivesSame a.now b.now n result }
{
    if read_u32(a, 0) != read_u32(b, 0) {
        return false;
    }
    read_u32(a, n - 4) == read_u32(b, n - 4)
}

// Whether the first n bytes are the same.
fn same_bytes(a: &[u8], b: &[u8], n: usize) -> bool
    requires { (n ≤ length a.now) × (n ≤ length b.now) }
    ensures { GivesSame a.now b.now n result }
{
    if 128 <= n {
        return same_blocks(a, b, n);
    }
    if 8 <= n {
        return same_ends(a, b, n);
    }
    if 4 <= n {
        return same_fours(a, b, n);
    }
    for i in 0..n {
        if a[i] != b[i] {
            return false;
        }
    }
    true
}

// Whether a layout reads the same of two bytes.
fn same_byte(layout: EntryLayout, x: u8, y: u8) -> bool
    ensures { result ≡ eqb (significant_of layout x) (significant_of layout y) }
{
    match layout {
        EntryLayout::Tele => x / 128 == y / 128,
        EntryLayout::Sap => {
            if x / 128 == y / 128 {
                x % 16 == y % 16
            } else {
                false
            }
        }
        EntryLayout::Roll => x == y,
        EntryLayout::Rap => x == y,
        EntryLayout::Rash => x == y,
        EntryLayout::Alst => x == y,
        EntryLayout::Raw => x == y,
    }
}

// Entries of one byte.
fn byte_left(layout: EntryLayout, a: &[u8], b: &[u8]) -> Result<Left, Refusal>
    requires { Short layout 1 }
    ensures { LeftOf layout a.now b.now result }
{
    if a.len() < 1 {
        return Err(Refusal::ShortEntry);
    }
    if b.len() < 1 {
        return Err(Refusal::ShortEntry);
    }
    Ok(Left::Told(same_byte(layout, a[0], b[0])))
}

// Entries of two bytes.
fn roll_left(a: &[u8], b: &[u8]) -> Result<Left, Refusal>
    ensures { LeftOf Roll a.now b.now result }
{
    if a.len() < 2 {
        return Err(Refusal::ShortEntry);
    }
    if b.len() < 2 {
        return Err(Refusal::ShortEntry);
    }
    if a[0] != b[0] {
        return Ok(Left::Told(false));
    }
    Ok(Left::Told(a[1] == b[1]))
}

// Entries of a layout that reads all bits of its front: the first one's front has m bytes.
fn second_left(
    layout: EntryLayout,
    a: &[u8],
    b: &[u8],
    m: usize,
    front: Result<usize, Refusal>,
) -> Result<Left, Refusal>
    requires { (AllBytes a.now) × (AllBytes b.now) × (FrontIs (given m) layout a.now) × (FrontIs (told_value front) layout b.now) × ((x : ℕ) → significant_of layout x ≡ x) }
    ensures { LeftOf layout a.now b.now result }
{
    let n = front?;
    if m == n {
        Ok(Left::Bytes(n))
    } else {
        Ok(Left::Told(false))
    }
}

fn rash_left(a: &[u8], b: &[u8]) -> Result<Left, Refusal>
    requires { (length a.now ≤ input_limit) × (length b.now ≤ input_limit) }
    ensures { LeftOf Rash a.now b.now result }
{
    let m = rash_front(a)?;
    second_left(EntryLayout::Rash, a, b, m, rash_front(b))
}

fn alst_left(a: &[u8], b: &[u8]) -> Result<Left, Refusal>
    requires { (length a.now ≤ input_limit) × (length b.now ≤ input_limit) }
    ensures { LeftOf Alst a.now b.now result }
{
    let m = alst_front(a)?;
    second_left(EntryLayout::Alst, a, b, m, alst_front(b))
}

// Each layout has code of its own, so that the compiler branches once, on the type.
fn left_of(layout: EntryLayout, a: &[u8], b: &[u8]) -> Result<Left, Refusal>
    requires { (length a.now ≤ input_limit) × (length b.now ≤ input_limit) }
    ensures { LeftOf layout a.now b.now result }
{
    match layout {
        EntryLayout::Roll => roll_left(a, b),
        EntryLayout::Rap => byte_left(EntryLayout::Rap, a, b),
        EntryLayout::Tele => byte_left(EntryLayout::Tele, a, b),
        EntryLayout::Sap => byte_left(EntryLayout::Sap, a, b),
        EntryLayout::Rash => rash_left(a, b),
        EntryLayout::Alst => alst_left(a, b),
        EntryLayout::Raw => second_left(EntryLayout::Raw, a, b, a.len(), Ok(b.len())),
    }
}

// Whether the two decode to the same value.
pub fn likeness_of(grouping_type: u32, a: &[u8], b: &[u8]) -> Result<bool, Refusal>
    ensures { told_value result ≡ alike grouping_type a.now b.now }
{
    if INPUT_LIMIT < a.len() {
        return Err(Refusal::InputTooLong);
    }
    if INPUT_LIMIT < b.len() {
        return Err(Refusal::InputTooLong);
    }
    let left = left_of(group_entries::layout_of(grouping_type), a, b)?;
    match left {
        Left::Told(same) => Ok(same),
        Left::Bytes(n) => Ok(same_bytes(a, b, n)),
    }
}

// The same.
pub fn decode_alike(grouping_type: u32, a: &[u8], b: &[u8]) -> Result<bool, Refusal>
    ensures { told_value result ≡ alike grouping_type a.now b.now }
{
    likeness_of(grouping_type, a, b)
}
