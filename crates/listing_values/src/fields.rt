// Numbers and fields of an entry, in groups of seven bits.
ghost use Rattle.std.specs.Prelude.{◌++◌, ◌+◌, ◌≤◌, ◌<◌, length};
ghost use Rattle.base_fields.specs.Number.{be_at};
ghost use Rattle.listing_theorem.specs.Groups.{groups};
ghost use Rattle.listing_numbers.specs.Store.{Puts, place_bound};
ghost use Rattle.listing_values.specs.Parts.{PutsWithin};

use listing_numbers::put_number;

// Two numbers, one behind the other.
pub fn put_two(out: &mut [u8], at: usize, first: u64, second: u64) -> usize
    requires { at + 20 < place_bound }
    ensures { Puts (groups first ++ groups second) at out.old out.new result }
{
    let next = put_number(out, at, first);
    put_number(out, next, second)
}

// A field of the entry, by its width.
pub fn put_u8(entry: &[u8], from: usize, out: &mut [u8], at: usize) -> usize
    requires { (from + 1 ≤ length entry.now) × (at + 10 < place_bound) }
    ensures { PutsWithin 2 (groups (be_at 1 entry.now from)) at out.old out.new result }
{
    put_number(out, at, base_fields::read_u8(entry, from) as u64)
}

pub fn put_u16(entry: &[u8], from: usize, out: &mut [u8], at: usize) -> usize
    requires { (from + 2 ≤ length entry.now) × (at + 10 < place_bound) }
    ensures { PutsWithin 3 (groups (be_at 2 entry.now from)) at out.old out.new result }
{
    put_number(out, at, base_fields::read_u16(entry, from) as u64)
}

pub fn put_u32(entry: &[u8], from: usize, out: &mut [u8], at: usize) -> usize
    requires { (from + 4 ≤ length entry.now) × (at + 10 < place_bound) }
    ensures { PutsWithin 5 (groups (be_at 4 entry.now from)) at out.old out.new result }
{
    put_number(out, at, base_fields::read_u32(entry, from) as u64)
}
