// Stored vectors: lines, a line's record, and the answer of a call against the record's.
//
// A line is a record in lower-case hexadecimal. A record, all numbers big-endian: entry (1 byte), count of arguments (1), arguments (8 each),
// length of the input (2), the input, status (1), count of numbers (1), numbers (8 each). Bytes that a record lacks are read as 0.
#![tactic(auto)]

mod text;

ghost use Rattle.std.specs.Prelude.{◌≡◌, ◌%◌, ◌<◌, get_or};
ghost use Rattle.test_vector_lines.specs.Lines.{argument_of, input_place, input_size, input_of, answer_of, numbers_of, told_status, same_status, same_numbers, agrees_with};

pub use text::{decode, front, line_end, rest};

// The byte at a place, 0 past the end.
fn byte(s: &[u8], at: usize) -> usize
    ensures { (result ≡ get_or s.now at 0) × (result < 256) }
{
    if at < s.len() {
        base_fields::read_u8(s, at) as usize
    } else {
        0
    }
}

// The number of the entry.
pub fn entry(s: &[u8]) -> usize
    ensures { result ≡ get_or s.now 0 0 }
{
    byte(s, 0)
}

// Argument k, counted from 0; 0 where the record has none.
pub fn argument(s: &[u8], k: u8) -> u64
    ensures { result ≡ argument_of s.now k }
{
    let at = 2 + 8 * (k as usize);
    if byte(s, 1) <= k as usize {
        return 0;
    }
    if s.len() < at + 8 {
        return 0;
    }
    base_fields::read_u64(s, at)
}

// Argument k of an entry that takes 32 bits.
pub fn argument_u32(s: &[u8], k: u8) -> u32
    ensures { result ≡ argument_of s.now k % 4294967296 }
{
    (argument(s, k) % 4294967296) as u32
}

// The place of the input.
fn input_place(s: &[u8]) -> usize
    ensures { (result ≡ input_place s.now) × (result < 2048) }
{
    4 + 8 * byte(s, 1)
}

// The length of the input, in the two bytes before it.
fn input_size(s: &[u8]) -> usize
    ensures { (result ≡ input_size s.now) × (result < 65536) }
{
    let at = 2 + 8 * byte(s, 1);
    256 * byte(s, at) + byte(s, at + 1)
}

pub fn input(s: &[u8]) -> &[u8]
    ensures { result.now ≡ input_of s.now }
{
    front(rest(s, input_place(s)), input_size(s))
}

// The answer: status, count of numbers, numbers.
fn answer(s: &[u8]) -> &[u8]
    ensures { result.now ≡ answer_of s.now }
{
    rest(s, input_place(s) + input_size(s))
}

// An answer that is whole and has this status, and numbers only with 0.
fn told_status(told: &[u8], status: u32) -> bool
    ensures { result ≡ told_status told.now status }
{
    if told.len() % 8 != 2 {
        return false;
    }
    if byte(told, 1) != told.len() / 8 {
        return false;
    }
    if status != 0 {
        if told.len() != 2 {
            return false;
        }
    }
    byte(told, 0) as u32 == status
}

// The record is whole and has this status, and numbers only with 0; they are for the caller to compare.
pub fn same_status(s: &[u8], status: u32) -> bool
    ensures { result ≡ same_status s.now status }
{
    told_status(answer(s), status)
}

// The record's numbers, 8 bytes each.
pub fn numbers(s: &[u8]) -> &[u8]
    ensures { result.now ≡ numbers_of s.now }
{
    rest(answer(s), 2)
}

// The record has this status and, with 0, these numbers.
pub fn agrees(s: &[u8], status: u32, out: &[u64]) -> bool
    ensures { result ≡ agrees_with s.now status out.now }
{
    if same_status(s, status) {
        if status != 0 {
            return true;
        }
        return same_numbers(numbers(s), out);
    }
    false
}

// The numbers in the bytes are these.
pub fn same_numbers(seen: &[u8], out: &[u64]) -> bool
    ensures { result ≡ same_numbers seen.now out.now }
{
    if seen.len() / 8 != out.len() {
        return false;
    }
    for k in 0..out.len() {
        if base_fields::read_u64(seen, 8 * k) != out[k] {
            return false;
        }
    }
    true
}
