// The C interface: group descriptions, film-wide and of a fragment, and the rate of a point.
ghost use Rattle.std.specs.Prelude.{◌≡◌};
ghost use Rattle.base_fields.specs.Answer.{given};
ghost use Rattle.group_fragments.specs.Fragments.{described_at, rate_of};
ghost use Rattle.group_sgpd.specs.Sgpd.{parse_sgpd, entry_at, all_entries};
ghost use Rattle.film_status.specs.Status.{Returns, FillsRecords, stored};
ghost use Rattle.film_descriptions.specs.Descriptions.{description_numbers, span_numbers, part_numbers, split_numbers};

// out: version, type, default length, default index, entry count.
#[unsafe(no_mangle)]
pub extern "C" fn film_parse_sgpd(s: &[u8], out: &mut [u64; 5]) -> u32
    ensures { Returns (parse_sgpd s.now) description_numbers out.old out.new result }
{
    film_descriptions::film_parse_sgpd(s, out)
}

// out: place and length of an entry (counted from 1) in the payload.
#[unsafe(no_mangle)]
pub extern "C" fn film_entry_place(s: &[u8], index: u32, out: &mut [u64; 2]) -> u32
    ensures { Returns (entry_at s.now index) span_numbers out.old out.new result }
{
    film_descriptions::film_entry_place(s, index, out)
}

// places: place and length of each entry, in front of the lent run. out: entry count.
#[unsafe(no_mangle)]
pub extern "C" fn film_entry_places(s: &[u8], places: &mut [u32], out: &mut [u64; 1]) -> u32
    ensures { FillsRecords (all_entries s.now places.old) (λ e. e.place) (λ e. e.size) places.old places.new out.old out.new result }
{
    film_descriptions::film_entry_places(s, places, out)
}

// out: the index without bit 31, and that bit. There is nothing to refuse, and no status.
#[unsafe(no_mangle)]
pub extern "C" fn film_split_csgp_index(raw: u32, out: &mut [u64; 2])
    ensures { out.new ≡ stored split_numbers (given raw) out.old }
{
    film_descriptions::film_split_csgp_index(raw, out)
}

// out: 1 where the part is the fragment's, its place and its length.
#[unsafe(no_mangle)]
pub extern "C" fn film_described_place(
    film: &[u8],
    fragment: &[u8],
    raw: u32,
    out: &mut [u64; 3],
) -> u32
    ensures { Returns (described_at film.now fragment.now raw) part_numbers out.old out.new result }
{
    film_descriptions::film_described_place(film, fragment, raw, out)
}

// The bitrate of a point, of which a share is given in percent.
#[unsafe(no_mangle)]
pub extern "C" fn film_rate_of_point(bitrate: u32, share: u16) -> u64
    ensures { result ≡ rate_of bitrate share }
{
    film_descriptions::film_rate_of_point(bitrate, share)
}
