// Alternative startup entries: the roll count, the first output, the offsets, the pair count and the pairs.
ghost use Rattle.std.specs.Prelude.{◌≡◌, ◌+◌, ◌*◌, ◌≤◌, ◌<◌, length};
ghost use Rattle.base_fields.specs.Answer.{input_limit};
ghost use Rattle.group_entries.specs.Decoded.{offsets_end, offset_at, pair_at, up_to};
ghost use Rattle.group_entries.specs.declared.EntryLayout.TheVariants.{Alst};
ghost use Rattle.listing_theorem.specs.Groups.{groups};
ghost use Rattle.listing_theorem.specs.Listing.{each, pair_bytes};
ghost use Rattle.listing_numbers.specs.Store.{place_bound};
ghost use Rattle.listing_values.specs.Value.{PutsValue, value_limit};
ghost use Rattle.listing_values.specs.Parts.{Ready, PutsWithin};

use super::fields::{put_two, put_u16, put_u32};
use listing_numbers::put_number;

fn put_offsets(entry: &[u8], count: usize, out: &mut [u8], at: usize) -> usize
    requires { (4 + 4 * count ≤ length entry.now) × (count < 65536) × (at + value_limit < place_bound) }
    ensures { PutsWithin (5 * count) (each groups (up_to (offset_at entry.now) 0 count)) at out.old out.new result }
{
    let mut place = at;
    for k in 0..count {
        place = put_u32(entry, 4 + 4 * k, out, place);
    }
    place
}

// The pairs from byte `from` on: output and total.
fn put_pairs(entry: &[u8], from: usize, count: usize, out: &mut [u8], at: usize) -> usize
    requires { (from ≡ offsets_end entry.now) × (from + 4 * count ≤ length entry.now) × (length entry.now ≤ input_limit) × (at + value_limit < place_bound) }
    ensures { PutsWithin (6 * count) (each pair_bytes (up_to (pair_at entry.now) 0 count)) at out.old out.new result }
{
    let mut place = at;
    for k in 0..count {
        let pair = from + 4 * k;
        let output = base_fields::read_u16(entry, pair);
        let total = base_fields::read_u16(entry, pair + 2);
        place = put_two(out, place, output as u64, total as u64);
    }
    place
}

pub fn put_alst(entry: &[u8], out: &mut [u8], at: usize) -> usize
    requires { Ready Alst entry.now at }
    ensures { PutsValue Alst entry.now at out.old out.new result }
{
    let rolls = base_fields::read_u16(entry, 0) as usize;
    let end = 4 + 4 * rolls;
    let pairs = (entry.len() - end) / 4;
    let behind_rolls = put_number(out, at, rolls as u64);
    let behind_first = put_u16(entry, 2, out, behind_rolls);
    let behind_offsets = put_offsets(entry, rolls, out, behind_first);
    let behind_count = put_number(out, behind_offsets, pairs as u64);
    put_pairs(entry, end, pairs, out, behind_count)
}
