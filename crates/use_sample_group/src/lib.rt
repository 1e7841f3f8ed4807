// The group of a sample, without lent rows: its index, and where the entry stands that it leads to.
#![tactic(auto)]

mod parts;

ghost use Rattle.std.specs.Prelude.{◌≡◌};
ghost use Rattle.use_sample_group.specs.SampleGroup.{sample_group, file_sample_group};
ghost use Rattle.use_sample_group.specs.Told.{told_group};

use atom_path::find_stbl;
use base_fields::refusal::Refusal;
use base_fields::{Part, bytes_at};
use base_ids::{DescriptionIndex, SampleNumber};
use listing_group::open_group;
use parts::{entry_of, group_from, index_of};

#[derive(Clone, Copy)]
pub enum SampleGroup {
    // Outside every group: index 0.
    Outside,
    // An index past the entries.
    Missing(DescriptionIndex),
    // The index, and where the entry's bytes stand.
    Entry(DescriptionIndex, Part),
}

// The group of a sample in an stbl's body. An entry's place is counted in the body.
pub fn sample_group(
    body: &[u8],
    grouping_type: u32,
    sample: SampleNumber,
) -> Result<SampleGroup, Refusal>
    ensures { told_group result ≡ sample_group body.now grouping_type sample.0 }
{
    let group = open_group(body, grouping_type, None)?;
    let wanted = sample.0 as u64;
    if group.count <= wanted {
        return Err(Refusal::FrameNotCovered);
    }
    let table = group.table;
    let place = group.sgpd_place;
    let index = index_of(
        bytes_at(body, group.table_place, group.table_size),
        table,
        wanted,
    );
    let found = entry_of(bytes_at(body, place, group.sgpd_size), index)?;
    Ok(group_from(place, found))
}

// The same for the stbl of a track of a film, counted from 0. An entry's place is counted in the film's bytes.
pub fn file_sample_group(
    s: &[u8],
    track: u32,
    grouping_type: u32,
    sample: SampleNumber,
) -> Result<SampleGroup, Refusal>
    ensures { told_group result ≡ file_sample_group s.now track grouping_type sample.0 }
{
    let body = find_stbl(s, track)?;
    let place = body.place as usize;
    let stbl = bytes_at(s, place, body.size as usize);
    let group = sample_group(stbl, grouping_type, sample)?;
    Ok(group_from(place, group))
}
