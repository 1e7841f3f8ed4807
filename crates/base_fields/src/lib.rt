// Parts of a slice, and numbers at a place of it: big-endian at a byte place, and fields of a bit stream at a bit place.
#![tactic(auto)]

pub mod fourcc;
pub mod refusal;

ghost use Rattle.std.specs.Prelude.{◌≡◌, ◌+◌, ◌*◌, ◌≤◌, ◌<◌, ◌^◌, length};
ghost use Rattle.base_fields.specs.Answer.{input_limit, given};
ghost use Rattle.base_fields.specs.Number.{be_at, bits_at};
ghost use Rattle.base_fields.specs.Span.{GivesPart};

// The longest input that is taken, in bytes.
pub const INPUT_LIMIT: usize = 67108864;

// Where a part of a slice stands: its place and its length.
#[derive(Clone, Copy)]
pub struct Part {
    pub place: usize,
    pub size: usize,
}

// A part of a slice, by its place and its length.
pub fn bytes_at(s: &[u8], place: usize, size: usize) -> &[u8]
    requires { place + size ≤ length s.now }
    ensures { GivesPart (given (record { place = place; size = size })) s.now s.entry.ref_ptr result.now result.ref_ptr }
{
    let end = place + size;
    &s[place..end]
}

pub fn read_u8(s: &[u8], at: usize) -> u8
    requires { at + 1 ≤ length s.now }
    ensures { (result ≡ be_at 1 s.now at) × (result < 256) }
{
    s[at]
}

pub fn read_u16(s: &[u8], at: usize) -> u16
    requires { at + 2 ≤ length s.now }
    ensures { (result ≡ be_at 2 s.now at) × (result < 65536) }
{
    (read_u8(s, at) as u16) * 256 + (read_u8(s, at + 1) as u16)
}

pub fn read_u32(s: &[u8], at: usize) -> u32
    requires { at + 4 ≤ length s.now }
    ensures { (result ≡ be_at 4 s.now at) × (result < 4294967296) }
{
    (read_u16(s, at) as u32) * 65536 + (read_u16(s, at + 2) as u32)
}

// Byte by byte, so that the compiler makes one load of it.
pub fn read_u64(s: &[u8], at: usize) -> u64
    requires { at + 8 ≤ length s.now }
    ensures { (result ≡ be_at 8 s.now at) × (result < 18446744073709551616) }
{
    let high = (read_u8(s, at) as u64) * 72057594037927936
        + (read_u8(s, at + 1) as u64) * 281474976710656
        + (read_u8(s, at + 2) as u64) * 1099511627776
        + (read_u8(s, at + 3) as u64) * 4294967296;
    let low = (read_u8(s, at + 4) as u64) * 16777216
        + (read_u8(s, at + 5) as u64) * 65536
        + (read_u8(s, at + 6) as u64) * 256
        + (read_u8(s, at + 7) as u64);
    high + low
}

// The byte at a place, 0 past the end.
fn byte_or_zero(s: &[u8], at: usize) -> u64
    ensures { (result ≡ be_at 1 s.now at) × (result < 256) }
{
    if at < s.len() { s[at] as u64 } else { 0 }
}

// The five bytes from a place as one number: a field of at most 32 bits that starts in the first lies within them.
fn window(s: &[u8], at: usize) -> u64
    requires { at ≤ length s.now }
    ensures { (result ≡ be_at 5 s.now at) × (result < 1099511627776) }
{
    if at + 5 <= s.len() {
        return (read_u32(s, at) as u64) * 256 + (read_u8(s, at + 4) as u64);
    }
    let high = byte_or_zero(s, at) * 16777216 + byte_or_zero(s, at + 1) * 65536;
    let low = byte_or_zero(s, at + 2) * 256 + byte_or_zero(s, at + 3);
    (high + low) * 256 + byte_or_zero(s, at + 4)
}

// A field of bits by the five bytes that it starts in: for the few that start within the first eight bytes.
fn early_bits(s: &[u8], at: usize, width: u32) -> u32
    requires { (width ≤ 32) × (at + width ≤ 8 * length s.now) }
    ensures { (result ≡ bits_at width s.now at) × (result < 2 ^ width) }
{
    let skipped = (at % 8) as u32;
    let shifted = window(s, at / 8) >> (40 - skipped - width);
    (shifted % (1u64 << width)) as u32
}

// The number in `width` bits from a bit place, high bit first, where eight bytes end with it: it is cut out of them.
pub fn late_bits(s: &[u8], at: usize, width: u32) -> u32
    requires { (width ≤ 32) × (64 ≤ at + width) × (at + width ≤ 8 * length s.now) × (length s.now ≤ input_limit) }
    ensures { (result ≡ bits_at width s.now at) × (result < 2 ^ width) }
{
    let behind = at + width as usize;
    let end = (behind + 7) / 8;
    let shifted = read_u64(s, end - 8) >> (8 * end - behind);
    (shifted % (1u64 << width)) as u32
}

// The number in `width` bits from any bit place, high bit first.
pub fn read_bits(s: &[u8], at: usize, width: u32) -> u32
    requires { (width ≤ 32) × (at + width ≤ 8 * length s.now) × (length s.now ≤ input_limit) }
    ensures { (result ≡ bits_at width s.now at) × (result < 2 ^ width) }
{
    if at < 64 {
        return early_bits(s, at, width);
    }
    late_bits(s, at, width)
}
