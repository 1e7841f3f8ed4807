// Entries of one or two bytes: roll, prol, rap, tele and sap.
ghost use Rattle.std.specs.Prelude.{◌≡◌, ◌++◌, ◌+◌, ◌%◌, ◌≤◌, ◌<◌, length};
ghost use Rattle.base_fields.specs.Number.{be_at};
ghost use Rattle.group_entries.specs.Decoded.{signed16, top_bit};
ghost use Rattle.group_entries.specs.declared.EntryLayout.TheVariants.{Roll, Rap, Tele, Sap};
ghost use Rattle.listing_theorem.specs.Groups.{groups};
ghost use Rattle.listing_theorem.specs.Listing.{shifted, flag};
ghost use Rattle.listing_numbers.specs.Store.{place_bound};
ghost use Rattle.listing_values.specs.Value.{PutsValue};
ghost use Rattle.listing_values.specs.Parts.{Ready, PutsWithin};

use super::fields::put_two;
use listing_numbers::put_number;

// The distance that 16 bits hold, plus 32,768.
fn shifted_distance(x: u16) -> u16
    ensures { (result ≡ shifted (signed16 x)) × (result < 65536) }
{
    if x < 32768 { x + 32768 } else { x - 32768 }
}

pub fn put_roll(entry: &[u8], out: &mut [u8], at: usize) -> usize
    requires { Ready Roll entry.now at }
    ensures { PutsValue Roll entry.now at out.old out.new result }
{
    let distance = shifted_distance(base_fields::read_u16(entry, 0));
    put_number(out, at, distance as u64)
}

// The top bit and the number in the low bits, of which `low` is one more than the largest.
fn put_flag_and_number(entry: &[u8], low: u8, out: &mut [u8], at: usize) -> usize
    requires { (1 ≤ length entry.now) × (0 < low) × (at + 20 < place_bound) }
    ensures { PutsWithin 3 (groups (flag (top_bit (be_at 1 entry.now 0))) ++ groups (be_at 1 entry.now 0 % low)) at out.old out.new result }
{
    let b = base_fields::read_u8(entry, 0);
    let flag = b / 128;
    let number = b % low;
    put_two(out, at, flag as u64, number as u64)
}

pub fn put_rap(entry: &[u8], out: &mut [u8], at: usize) -> usize
    requires { Ready Rap entry.now at }
    ensures { PutsValue Rap entry.now at out.old out.new result }
{
    put_flag_and_number(entry, 128, out, at)
}

pub fn put_tele(entry: &[u8], out: &mut [u8], at: usize) -> usize
    requires { Ready Tele entry.now at }
    ensures { PutsValue Tele entry.now at out.old out.new result }
{
    put_number(out, at, (base_fields::read_u8(entry, 0) / 128) as u64)
}

pub fn put_sap(entry: &[u8], out: &mut [u8], at: usize) -> usize
    requires { Ready Sap entry.now at }
    ensures { PutsValue Sap entry.now at out.old out.new result }
{
    put_flag_and_number(entry, 16, out, at)
}
