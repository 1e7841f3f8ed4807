// What a cue listing needs to be lent: records for the table's rows, and bytes of output.
#![tactic(auto)]

ghost use Rattle.std.specs.Prelude.{◌≡◌};
ghost use Rattle.group_sgpd.specs.Head.{ReadWhole};
ghost use Rattle.table_runs.specs.Ahead.{all_in, WholeIn};
ghost use Rattle.listing_needs.specs.Needs.{needs_of_listing, file_listing_needs};
ghost use Rattle.listing_needs.specs.Told.{told_needs, measured_bytes, GivesNeeded};

use atom_path::find_stbl;
use base_fields::bytes_at;
use base_fields::refusal::Refusal;
use group_sgpd::{SgpdHead, entry_marks};
use listing_group::open_group;
use listing_meanings::check_used;
use listing_measure::measure_listing;
use table_needed::UNLIMITED;
use table_runs::{SampleTable, count_samples};

#[derive(Clone, Copy)]
pub struct ListingNeeds {
    pub rows: u64,
    pub bytes: u64,
}

// No output is longer.
pub const OUTPUT_LIMIT: usize = 9223372036854775808;

// The bytes that a listing needs, by its measure: one more than any output has, where it is longer than that.
fn bytes_for(measured: Option<usize>) -> u64
    ensures { result ≡ measured_bytes measured }
{
    match measured {
        Some(n) => n as u64,
        None => OUTPUT_LIMIT as u64 + 1,
    }
}

// The table and the descriptions are read, and the rows are counted: the decoders' refusals, and the length of the listing.
fn needs_of(
    table_s: &[u8],
    table: SampleTable,
    s: &[u8],
    head: SgpdHead,
    grouping_type: u32,
    rows: u64,
) -> Result<ListingNeeds, Refusal>
    requires { (WholeIn table_s.now table (all_in table)) × (ReadWhole s.now head) }
    ensures { GivesNeeded table_s.now table s.now grouping_type rows result }
{
    let marks = entry_marks(s, head);
    check_used(table_s, table, s, head, &marks, grouping_type)?;
    let samples = count_samples(table_s, table);
    let mut unused: [u8; 1] = [0; 1];
    let measured = measure_listing(
        grouping_type,
        table_s,
        table,
        s,
        head,
        &marks,
        samples,
        &mut unused[..0],
        OUTPUT_LIMIT,
    );
    Ok(ListingNeeds {
        rows,
        bytes: bytes_for(measured),
    })
}

// For the listing of an stbl's body. Nothing is lent, so that neither 29 nor 54 comes.
pub fn listing_needs(body: &[u8], grouping_type: u32) -> Result<ListingNeeds, Refusal>
    ensures { told_needs result ≡ needs_of_listing body.now grouping_type }
{
    let group = open_group(body, grouping_type, Some(UNLIMITED))?;
    let table = group.table;
    let head = group.head;
    let table_s = bytes_at(body, group.table_place, group.table_size);
    let s = bytes_at(body, group.sgpd_place, group.sgpd_size);
    needs_of(table_s, table, s, head, grouping_type, group.count)
}

// The same for the stbl of a track of a film, counted from 0.
pub fn file_listing_needs(s: &[u8], track: u32, grouping_type: u32) -> Result<ListingNeeds, Refusal>
    ensures { told_needs result ≡ file_listing_needs s.now track grouping_type }
{
    let body = find_stbl(s, track)?;
    let stbl = bytes_at(s, body.place as usize, body.size as usize);
    listing_needs(stbl, grouping_type)
}
