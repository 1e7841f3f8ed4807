// Where decoding begins for a frame (document 02, A3): the latest sample from which a decoder can start and be clean in time.
#![tactic(auto)]

mod distances;
mod positions;
mod search;

ghost use Rattle.std.specs.Prelude.{◌≡◌};
ghost use Rattle.base_fields.specs.Fourcc as fourcc_of;
ghost use Rattle.group_sgpd.specs.Head.{ReadWhole};
ghost use Rattle.table_rows.specs.Pattern.{covered_by};
ghost use Rattle.table_runs.specs.Ahead.{all_in, ahead_in, WholeIn};
ghost use Rattle.use_decode_start.specs.Start.{GivesStart};
ghost use Rattle.use_decode_start.specs.Told.{told_start};
ghost use Rattle.use_decode_start.specs.From.{GivesIn};

use base_fields::refusal::Refusal;
use base_fields::{bytes_at, fourcc};
use base_ids::{SampleCount, SampleNumber};
use group_sgpd::{SgpdHead, entry_marks};
use listing_group::open_group;
use search::search_table;
use table_runs::SampleTable;

// The distance of a member; nothing of other samples.
#[derive(Clone, Copy)]
enum Distance {
    Nothing,
    // 0 or more.
    Ahead(u16),
    // The size of a negative one, less 1.
    Behind(u16),
}

// In a group whose table covers so many samples: 62, the decoders' refusals, and the search.
fn start_in(
    table_s: &[u8],
    table: SampleTable,
    covered: u64,
    s: &[u8],
    head: SgpdHead,
    grouping_type: u32,
    frame: SampleNumber,
) -> Result<Option<SampleNumber>, Refusal>
    requires { (WholeIn table_s.now table (all_in table)) × (covered ≡ covered_by (ahead_in table_s.now table (all_in table))) × (ReadWhole s.now head) }
    ensures { GivesIn table_s.now table s.now grouping_type frame.0 (told_start result) }
{
    let wanted = frame.0 as u64;
    if covered <= wanted {
        return Err(Refusal::FrameNotCovered);
    }
    let marks = entry_marks(s, head);
    let latest = search_table(table_s, table, s, head, &marks, grouping_type, wanted)?;
    if latest == 0 {
        return Ok(None);
    }
    Ok(Some(SampleNumber((latest - 1) as SampleCount)))
}

// For a type with distances.
fn decode_start(
    body: &[u8],
    grouping_type: u32,
    frame: SampleNumber,
) -> Result<Option<SampleNumber>, Refusal>
    ensures { GivesStart body.now grouping_type frame.0 (told_start result) }
{
    let group = open_group(body, grouping_type, None)?;
    let table = group.table;
    let head = group.head;
    let table_s = bytes_at(body, group.table_place, group.table_size);
    let s = bytes_at(body, group.sgpd_place, group.sgpd_size);
    start_in(table_s, table, group.count, s, head, grouping_type, frame)
}

// By the roll group: a member with distance d of 0 or more begins at its sample and is clean d samples later; one with a negative distance
// begins so many samples before, if there are so many, and is clean at its sample.
pub fn roll_start(body: &[u8], frame: SampleNumber) -> Result<Option<SampleNumber>, Refusal>
    ensures { GivesStart body.now fourcc_of.roll frame.0 (told_start result) }
{
    decode_start(body, fourcc::ROLL, frame)
}

// By the random access points: each begins and is clean at its sample.
pub fn rap_start(body: &[u8], frame: SampleNumber) -> Result<Option<SampleNumber>, Refusal>
    ensures { GivesStart body.now fourcc_of.rap frame.0 (told_start result) }
{
    decode_start(body, fourcc::RAP, frame)
}
