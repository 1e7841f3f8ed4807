// Rate share entries: the point count, the points, and the fields behind them.
ghost use Rattle.std.specs.Prelude.{◌≡◌, ◌+◌, ◌*◌, ◌≤◌, ◌<◌, length};
ghost use Rattle.group_entries.specs.Decoded.{point_count, points_end, point_at, up_to};
ghost use Rattle.group_entries.specs.declared.EntryLayout.TheVariants.{Rash};
ghost use Rattle.listing_theorem.specs.Listing.{each, point_bytes};
ghost use Rattle.listing_numbers.specs.Store.{place_bound};
ghost use Rattle.listing_values.specs.Value.{PutsValue, value_limit};
ghost use Rattle.listing_values.specs.Parts.{Ready, PutsWithin};

use super::fields::{put_two, put_u8, put_u32};
use listing_numbers::put_number;

// Bitrate and share of point k; a single point has the bitrate 0.
fn put_point(entry: &[u8], count: u16, k: usize, out: &mut [u8], at: usize) -> usize
    requires { (count ≡ point_count entry.now) × (k < count) × (points_end entry.now + 9 ≤ length entry.now) × (at + 20 < place_bound) }
    ensures { PutsWithin 8 (point_bytes (point_at entry.now k)) at out.old out.new result }
{
    if count == 1 {
        return put_two(out, at, 0, base_fields::read_u16(entry, 2) as u64);
    }
    let place = 2 + 6 * k;
    let bitrate = base_fields::read_u32(entry, place);
    let share = base_fields::read_u16(entry, place + 4);
    put_two(out, at, bitrate as u64, share as u64)
}

fn put_points(entry: &[u8], count: u16, out: &mut [u8], at: usize) -> usize
    requires { (count ≡ point_count entry.now) × (points_end entry.now + 9 ≤ length entry.now) × (at + value_limit < place_bound) }
    ensures { PutsWithin (8 * count) (each point_bytes (up_to (point_at entry.now) 0 count)) at out.old out.new result }
{
    let mut place = at;
    for k in 0..count as usize {
        place = put_point(entry, count, k, out, place);
    }
    place
}

pub fn put_rash(entry: &[u8], out: &mut [u8], at: usize) -> usize
    requires { Ready Rash entry.now at }
    ensures { PutsValue Rash entry.now at out.old out.new result }
{
    let count = base_fields::read_u16(entry, 0);
    let end = group_entries::rash_points_end(count);
    let minimum = end + 4;
    let priority = end + 8;
    let behind_count = put_number(out, at, count as u64);
    let behind_points = put_points(entry, count, out, behind_count);
    let behind_maximum = put_u32(entry, end, out, behind_points);
    let behind_minimum = put_u32(entry, minimum, out, behind_maximum);
    put_u8(entry, priority, out, behind_minimum)
}
