// Entries of any other type: the byte count and the bytes unaltered.
ghost use Rattle.std.specs.Prelude.{◌+◌, ◌≤◌, ◌<◌, length};
ghost use Rattle.base_fields.specs.Answer.{input_limit};
ghost use Rattle.group_entries.specs.declared.EntryLayout.TheVariants.{Raw};
ghost use Rattle.listing_numbers.specs.Store.{Puts, place_bound};
ghost use Rattle.listing_values.specs.Value.{PutsValue, value_limit};
ghost use Rattle.listing_values.specs.Parts.{Ready};

use listing_numbers::{put_byte, put_number};

// Past the end of the output nothing is stored, and the bytes are only counted.
fn put_bytes(entry: &[u8], out: &mut [u8], at: usize) -> usize
    requires { (length entry.now ≤ input_limit) × (at + value_limit < place_bound) }
    ensures { Puts entry.now at out.old out.new result }
{
    if out.len() <= at {
        return at + entry.len();
    }
    let mut place = at;
    for byte in entry {
        place = put_byte(out, place, *byte);
    }
    place
}

pub fn put_raw(entry: &[u8], out: &mut [u8], at: usize) -> usize
    requires { Ready Raw entry.now at }
    ensures { PutsValue Raw entry.now at out.old out.new result }
{
    let behind_count = put_number(out, at, entry.len() as u64);
    put_bytes(entry, out, behind_count)
}
