// The value of an entry (document 01, part 8): its fields as numbers in groups of seven bits, or its bytes unaltered.
#![tactic(auto)]

mod alst;
mod fields;
mod plain;
mod rash;
mod raw;

ghost use Rattle.std.specs.Prelude.{◌≡◌, ◌≤◌, length};
ghost use Rattle.base_fields.specs.Answer.{given, input_limit};
ghost use Rattle.group_entries.specs.Decoded.{Decoded};
ghost use Rattle.group_entries.specs.Layout.{decode_as};
ghost use Rattle.listing_numbers.specs.Store.{place_limit};
ghost use Rattle.listing_values.specs.Value.{PutsValue};

use group_entries::EntryLayout;

// An entry that decodes.
pub fn put_value(layout: EntryLayout, entry: &[u8], out: &mut [u8], at: usize) -> usize
    requires { (length entry.now ≤ input_limit) × (at ≤ place_limit) × ((v : Decoded) × (decode_as layout entry.now ≡ given v)) }
    ensures { PutsValue layout entry.now at out.old out.new result }
{
    match layout {
        EntryLayout::Roll => plain::put_roll(entry, out, at),
        EntryLayout::Rap => plain::put_rap(entry, out, at),
        EntryLayout::Tele => plain::put_tele(entry, out, at),
        EntryLayout::Sap => plain::put_sap(entry, out, at),
        EntryLayout::Rash => rash::put_rash(entry, out, at),
        EntryLayout::Alst => alst::put_alst(entry, out, at),
        EntryLayout::Raw => raw::put_raw(entry, out, at),
    }
}
