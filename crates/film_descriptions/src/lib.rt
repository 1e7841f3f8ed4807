// The C interface: group descriptions, film-wide and of a fragment, and the rate of a point.
#![tactic(auto)]

ghost use Rattle.std.specs.Prelude.{◌≡◌};
ghost use Rattle.base_fields.specs.Answer.{given};
ghost use Rattle.group_fragments.specs.Fragments.{described_at, rate_of};
ghost use Rattle.group_sgpd.specs.Sgpd.{parse_sgpd, entry_at, all_entries};
ghost use Rattle.film_status.specs.Status.{Returns, FillsRecords, stored};
ghost use Rattle.film_descriptions.specs.Descriptions.{description_numbers, span_numbers, part_numbers, split_numbers};

use base_ids::DescriptionIndex;
use film_status::{NONE, bit_of, put_number};
use group_fragments::FoundPart;

// out: version, type, default length, default index, entry count.
pub fn film_parse_sgpd(s: &[u8], out: &mut [u64; 5]) -> u32
    ensures { Returns (parse_sgpd s.now) description_numbers out.old out.new result }
{
    match group_sgpd::parse_sgpd(s) {
        Ok(d) => {
            out[0] = u64::from(d.version);
            out[1] = u64::from(d.grouping_type);
            out[2] = u64::from(d.default_length);
            out[3] = u64::from(d.default_sample_description_index);
            out[4] = u64::from(d.entry_count);
            0
        }
        Err(refusal) => refusal.number(),
    }
}

// out: place and length of an entry (counted from 1) in the payload.
pub fn film_entry_place(s: &[u8], index: u32, out: &mut [u64; 2]) -> u32
    ensures { Returns (entry_at s.now index) span_numbers out.old out.new result }
{
    match group_sgpd::entry_place(s, DescriptionIndex(index)) {
        Ok(Some(part)) => {
            out[0] = part.place as u64;
            out[1] = part.size as u64;
            0
        }
        Ok(None) => NONE,
        Err(refusal) => refusal.number(),
    }
}

// places: place and length of each entry, in front of the lent run. out: entry count.
pub fn film_entry_places(s: &[u8], places: &mut [u32], out: &mut [u64; 1]) -> u32
    ensures { FillsRecords (all_entries s.now places.old) (λ e. e.place) (λ e. e.size) places.old places.new out.old out.new result }
{
    put_number(group_sgpd::entry_places(s, places).map(u64::from), out)
}

// out: the index without bit 31, and that bit. There is nothing to refuse, and no status.
pub fn film_split_csgp_index(raw: u32, out: &mut [u64; 2])
    ensures { out.new ≡ stored split_numbers (given raw) out.old }
{
    let split = group_fragments::split_csgp_index(raw);
    out[0] = u64::from(split.index.0);
    out[1] = bit_of(split.fragment_local);
}

// out: 1 where the part is the fragment's, its place and its length.
pub fn film_described_place(film: &[u8], fragment: &[u8], raw: u32, out: &mut [u64; 3]) -> u32
    ensures { Returns (described_at film.now fragment.now raw) part_numbers out.old out.new result }
{
    match group_fragments::described_place(film, fragment, raw) {
        Ok(Some(FoundPart::Film(part))) => {
            out[0] = 0;
            out[1] = part.place as u64;
            out[2] = part.size as u64;
            0
        }
        Ok(Some(FoundPart::Fragment(part))) => {
            out[0] = 1;
            out[1] = part.place as u64;
            out[2] = part.size as u64;
            0
        }
        Ok(None) => NONE,
        Err(refusal) => refusal.number(),
    }
}

// The bitrate of a point, of which a share is given in percent.
pub fn film_rate_of_point(bitrate: u32, share: u16) -> u64
    ensures { result ≡ rate_of bitrate share }
{
    group_fragments::rate_of_point(bitrate, share)
}
