// The C interface: the group of a sample, and what a cue listing needs to be lent.
#![tactic(auto)]

ghost use Rattle.std.specs.Prelude.{◌≡◌, [], ◌∷◌};
ghost use Rattle.std.proofs.lemmas.List.Edits.{sets};
ghost use Rattle.listing_needs.specs.Needs.{needs_of_listing, file_listing_needs};
ghost use Rattle.listing_needs.specs.Told.{told_needs};
ghost use Rattle.use_sample_group.specs.SampleGroup.{sample_group, file_sample_group};
ghost use Rattle.use_sample_group.specs.Told.{told_group};
ghost use Rattle.film_status.specs.Status.{Returns};
ghost use Rattle.film_groups.specs.Groups.{group_numbers, needs_numbers};

use base_fields::refusal::Refusal;
use base_ids::{SampleCount, SampleNumber};
use listing_needs::ListingNeeds;
use use_sample_group::SampleGroup;

// Hands four numbers out.
fn put_numbers(kind: u64, index: u64, place: u64, size: u64, out: &mut [u64; 4])
    ensures { out.new ≡ sets out.old 0 (kind ∷ index ∷ place ∷ size ∷ []) }
{
    out[0] = kind;
    out[1] = index;
    out[2] = place;
    out[3] = size;
}

// Hands a group out: kind, index, place and length of the entry.
fn put_group(group: Result<SampleGroup, Refusal>, out: &mut [u64; 4]) -> u32
    ensures { Returns (told_group group) group_numbers out.old out.new result }
{
    match group {
        Ok(SampleGroup::Outside) => {
            put_numbers(0, 0, 0, 0, out);
            0
        }
        Ok(SampleGroup::Missing(index)) => {
            put_numbers(1, index.0 as u64, 0, 0, out);
            0
        }
        Ok(SampleGroup::Entry(index, part)) => {
            put_numbers(2, index.0 as u64, part.place as u64, part.size as u64, out);
            0
        }
        Err(refusal) => refusal.number(),
    }
}

// out: the kind of a sample, counted from 0, its index, and in kind 2 the place and the length of the entry's bytes in the stbl's body, else 0.
pub fn film_sample_group(
    body: &[u8],
    grouping_type: u32,
    sample: SampleCount,
    out: &mut [u64; 4],
) -> u32
    ensures { Returns (sample_group body.now grouping_type sample) group_numbers out.old out.new result }
{
    put_group(
        use_sample_group::sample_group(body, grouping_type, SampleNumber(sample)),
        out,
    )
}

// The same for the stbl of a track of a film, counted from 0. The place is counted in the film's bytes.
pub fn film_file_sample_group(
    s: &[u8],
    track: u32,
    grouping_type: u32,
    sample: SampleCount,
    out: &mut [u64; 4],
) -> u32
    ensures { Returns (file_sample_group s.now track grouping_type sample) group_numbers out.old out.new result }
{
    let group = use_sample_group::file_sample_group(s, track, grouping_type, SampleNumber(sample));
    put_group(group, out)
}

// Hands the needs of a listing out.
fn put_needs(needs: Result<ListingNeeds, Refusal>, out: &mut [u64; 2]) -> u32
    ensures { Returns (told_needs needs) needs_numbers out.old out.new result }
{
    match needs {
        Ok(n) => {
            out[0] = n.bytes;
            out[1] = n.rows;
            0
        }
        Err(refusal) => refusal.number(),
    }
}

// out: the bytes and the records for rows that the cue listing of an stbl's body needs, in the order in which film_cue_listing reports them. 2^63 + 1 bytes
// stand for a listing that no output can hold.
pub fn film_listing_needs(body: &[u8], grouping_type: u32, out: &mut [u64; 2]) -> u32
    ensures { Returns (needs_of_listing body.now grouping_type) needs_numbers out.old out.new result }
{
    put_needs(listing_needs::listing_needs(body, grouping_type), out)
}

// The same for the stbl of a track of a film, counted from 0.
pub fn film_file_listing_needs(s: &[u8], track: u32, grouping_type: u32, out: &mut [u64; 2]) -> u32
    ensures { Returns (file_listing_needs s.now track grouping_type) needs_numbers out.old out.new result }
{
    put_needs(
        listing_needs::file_listing_needs(s, track, grouping_type),
        out,
    )
}
