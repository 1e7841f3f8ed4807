// The cue listing of a track of a film (document 02, A1).
#![tactic(auto)]

ghost use Rattle.listing_cue.specs.Told.{GivesCue};
ghost use Rattle.listing_file.specs.File.{file_call};

use atom_path::find_stbl;
use base_fields::bytes_at;
use base_fields::refusal::Refusal;
use base_ids::RowNumber;
use listing_cue::{CueLengths, cue_listing};

// Finds the stbl of a track, counted from 0, and writes its table's rows in front of the lent run and its listing in front of the output. Nothing
// is written on refusal.
pub fn file_cue_listing(
    s: &[u8],
    track: u32,
    grouping_type: u32,
    rows: &mut [RowNumber],
    out: &mut [u8],
) -> Result<CueLengths, Refusal>
    ensures { GivesCue (file_call s.now track grouping_type rows.old out.old) rows.old rows.new out.old out.new result }
{
    let body = find_stbl(s, track)?;
    let stbl = bytes_at(s, body.place as usize, body.size as usize);
    cue_listing(stbl, grouping_type, rows, out)
}
