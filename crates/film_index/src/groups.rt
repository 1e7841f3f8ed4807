// The C interface: the group of a sample, and what a cue listing needs to be lent.
ghost use Rattle.listing_needs.specs.Needs.{needs_of_listing, file_listing_needs};
ghost use Rattle.use_sample_group.specs.SampleGroup.{sample_group, file_sample_group};
ghost use Rattle.film_status.specs.Status.{Returns};
ghost use Rattle.film_groups.specs.Groups.{group_numbers, needs_numbers};

use base_ids::SampleCount;

// out: the kind of a sample, counted from 0, its index, and in kind 2 the place and the length of the entry's bytes in the stbl's body, else 0.
#[unsafe(no_mangle)]
pub extern "C" fn film_sample_group(
    body: &[u8],
    grouping_type: u32,
    sample: SampleCount,
    out: &mut [u64; 4],
) -> u32
    ensures { Returns (sample_group body.now grouping_type sample) group_numbers out.old out.new result }
{
    film_groups::film_sample_group(body, grouping_type, sample, out)
}

// The same for the stbl of a track of a film, counted from 0. The place is counted in the film's bytes.
#[unsafe(no_mangle)]
pub extern "C" fn film_file_sample_group(
    s: &[u8],
    track: u32,
    grouping_type: u32,
    sample: SampleCount,
    out: &mut [u64; 4],
) -> u32
    ensures { Returns (file_sample_group s.now track grouping_type sample) group_numbers out.old out.new result }
{
    film_groups::film_file_sample_group(s, track, grouping_type, sample, out)
}

// out: the bytes and the records for rows that the cue listing of an stbl's body needs, in the order in which film_cue_listing reports them. 2^63 + 1 bytes
// stand for a listing that no output can hold.
#[unsafe(no_mangle)]
pub extern "C" fn film_listing_needs(body: &[u8], grouping_type: u32, out: &mut [u64; 2]) -> u32
    ensures { Returns (needs_of_listing body.now grouping_type) needs_numbers out.old out.new result }
{
    film_groups::film_listing_needs(body, grouping_type, out)
}

// The same for the stbl of a track of a film, counted from 0.
#[unsafe(no_mangle)]
pub extern "C" fn film_file_listing_needs(
    s: &[u8],
    track: u32,
    grouping_type: u32,
    out: &mut [u64; 2],
) -> u32
    ensures { Returns (file_listing_needs s.now track grouping_type) needs_numbers out.old out.new result }
{
    film_groups::film_file_listing_needs(s, track, grouping_type, out)
}
