// The C interface: the stbl of a track of a film, the cue listing of an stbl's body, and that of a track.
#![tactic(auto)]

ghost use Rattle.atom_path.specs.Path.{stbl_at};
ghost use Rattle.listing_spec.specs.Cue.{cue_call};
ghost use Rattle.listing_cue.specs.Told.{told_cue};
ghost use Rattle.listing_file.specs.File.{file_call};
ghost use Rattle.film_status.specs.Status.{Returns, body_numbers};
ghost use Rattle.film_listing.specs.Listing.{length_numbers, Lists};

use base_fields::refusal::Refusal;
use base_ids::RowNumber;
use listing_cue::CueLengths;

// out: place and length of the body of the stbl of a track, counted from 0.
pub fn film_find_stbl(s: &[u8], track: u32, out: &mut [u64; 2]) -> u32
    ensures { Returns (stbl_at s.now track) body_numbers out.old out.new result }
{
    match atom_path::find_stbl(s, track) {
        Ok(body) => {
            out[0] = body.place;
            out[1] = body.size;
            0
        }
        Err(refusal) => refusal.number(),
    }
}

// Hands the lengths of a listing out.
fn put_lengths(listed: Result<CueLengths, Refusal>, out: &mut [u64; 2]) -> u32
    ensures { Returns (told_cue listed) length_numbers out.old out.new result }
{
    match listed {
        Ok(n) => {
            out[0] = n.listing as u64;
            out[1] = n.rows as u64;
            0
        }
        Err(refusal) => refusal.number(),
    }
}

// out: the listing's length, the row count. The rows stand in front of the lent run, the listing in front of the output.
pub fn film_cue_listing(
    body: &[u8],
    grouping_type: u32,
    rows: &mut [RowNumber],
    listing: &mut [u8],
    out: &mut [u64; 2],
) -> u32
    ensures { Lists (cue_call body.now grouping_type rows.old listing.old) rows.old rows.new listing.old listing.new out.old out.new result }
{
    let listed = listing_cue::cue_listing(body, grouping_type, rows, listing);
    put_lengths(listed, out)
}

// The same for the stbl of a track of a film, counted from 0.
pub fn film_file_cue_listing(
    s: &[u8],
    track: u32,
    grouping_type: u32,
    rows: &mut [RowNumber],
    listing: &mut [u8],
    out: &mut [u64; 2],
) -> u32
    ensures { Lists (file_call s.now track grouping_type rows.old listing.old) rows.old rows.new listing.old listing.new out.old out.new result }
{
    let listed = listing_file::file_cue_listing(s, track, grouping_type, rows, listing);
    put_lengths(listed, out)
}
