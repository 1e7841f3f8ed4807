// Atom headers (document 01, part 1).
ghost use Rattle.std.specs.Prelude.{◌≡◌, ◌+◌, ◌≤◌, length};
ghost use Rattle.base_fields.specs.Answer.{input_limit};
ghost use Rattle.base_fields.specs.Number.{be_at};
ghost use Rattle.atom_tree.specs.Atom.{header_at, by_size, extended};
ghost use Rattle.atom_tree.specs.Told.{size_of, header_of, told_header};

use super::AtomHeader;
use base_fields::INPUT_LIMIT;
use base_fields::refusal::Refusal;

// The largest place.
const LAST_PLACE: u64 = 18446744073709551615;

// The header of an atom of a type and a total size: every header is made here.
fn header_of(fourcc: u32, at: usize, total_size: Option<u64>, header_len: u64) -> AtomHeader
    requires { (at ≤ input_limit) × (header_len ≤ 16) }
    ensures { header_of result ≡ record { type = fourcc; size = size_of total_size; header_length = header_len; body = at + header_len } }
{
    AtomHeader {
        fourcc,
        total_size,
        header_len,
        payload_offset: at as u64 + header_len,
    }
}

// The header at a place that has 8 bytes, by the 32-bit size that stands there. The type is read once, for every kind of size.
pub fn header_by_size(s: &[u8], at: usize, size: u32) -> Result<Option<AtomHeader>, Refusal>
    requires { (at + 8 ≤ length s.now) × (length s.now ≤ input_limit) }
    ensures { told_header result ≡ by_size s.now at size }
{
    let fourcc = base_fields::read_u32(s, at + 4);
    match size {
        0 => Ok(Some(header_of(fourcc, at, None, 8))),
        1 => extended_header(s, at, fourcc),
        2..=7 => Err(Refusal::SmallSize),
        _ => Ok(Some(header_of(fourcc, at, Some(size as u64), 8))),
    }
}

// The header of an atom whose size stands in the 8 bytes behind the type.
fn extended_header(s: &[u8], at: usize, fourcc: u32) -> Result<Option<AtomHeader>, Refusal>
    requires { (at + 8 ≤ length s.now) × (length s.now ≤ input_limit) × (fourcc ≡ be_at 4 s.now (at + 4)) }
    ensures { told_header result ≡ extended s.now at }
{
    if s.len() < at + 16 {
        return Err(Refusal::ExtendedSizeCut);
    }
    let size = base_fields::read_u64(s, at + 8);
    if size < 16 {
        return Err(Refusal::SmallExtendedSize);
    }
    if LAST_PLACE - (at as u64) < size {
        return Err(Refusal::FarEnd);
    }
    Ok(Some(header_of(fourcc, at, Some(size), 16)))
}

// The header at a place of an input within the limit; none where no byte stands there. It has the tests of `read_atom_header` but 55, for the walker, which has made that
// one: with a reader of its own the compiler puts the header's reading in place of a call.
pub fn header_within(s: &[u8], at: u64) -> Result<Option<AtomHeader>, Refusal>
    requires { length s.now ≤ input_limit }
    ensures { told_header result ≡ header_at s.now at }
{
    let len = s.len();
    if (len as u64) <= at {
        return Ok(None);
    }
    let place = at as usize;
    if len < place + 8 {
        return Err(Refusal::HeaderCut);
    }
    header_by_size(s, place, base_fields::read_u32(s, place))
}

// The header at a place; none where no byte stands there.
pub fn read_atom_header(s: &[u8], at: u64) -> Result<Option<AtomHeader>, Refusal>
    ensures { told_header result ≡ header_at s.now at }
{
    let n = s.len();
    if INPUT_LIMIT < n {
        return Err(Refusal::InputTooLong);
    }
    if (n as u64) <= at {
        return Ok(None);
    }
    let place = at as usize;
    if n < place + 8 {
        return Err(Refusal::HeaderCut);
    }
    header_by_size(s, place, base_fields::read_u32(s, place))
}
