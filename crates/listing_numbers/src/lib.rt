// Numbers in groups of seven bits (document 01, part 8), stored straight into the output.
#![tactic(auto)]

ghost use Rattle.std.specs.Prelude.{◌+◌, ◌<◌, [], ◌∷◌};
ghost use Rattle.listing_theorem.specs.Groups.{groups};
ghost use Rattle.listing_theorem.specs.Listing.{type_bytes};
ghost use Rattle.listing_numbers.specs.Store.{Puts, place_bound};

// One byte. Past the end of the output there is nothing to store to, and the next place is told all the same: so lengths are measured.
pub fn put_byte(out: &mut [u8], at: usize, byte: u8) -> usize
    requires { at + 1 < place_bound }
    ensures { Puts (byte ∷ []) at out.old out.new result }
{
    if at < out.len() {
        out[at] = byte;
    }
    at + 1
}

// A number: its lowest group first, the top bit set on all but the last, with no needless group.
pub fn put_number(out: &mut [u8], at: usize, n: u64) -> usize
    requires { at + 10 < place_bound }
    ensures { Puts (groups n) at out.old out.new result }
{
    let mut place = at;
    let mut left = n;
    while 128 <= left {
        place = put_byte(out, place, (left % 128 + 128) as u8);
        left = left / 128;
    }
    put_byte(out, place, left as u8)
}

// The four bytes of a grouping type.
pub fn put_type(out: &mut [u8], at: usize, grouping_type: u32) -> usize
    requires { at + 4 < place_bound }
    ensures { Puts (type_bytes grouping_type) at out.old out.new result }
{
    let second = put_byte(out, at, (grouping_type / 16777216 % 256) as u8);
    let third = put_byte(out, second, (grouping_type / 65536 % 256) as u8);
    let last = put_byte(out, third, (grouping_type / 256 % 256) as u8);
    put_byte(out, last, (grouping_type % 256) as u8)
}
