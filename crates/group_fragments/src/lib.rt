// Film-wide and fragment descriptions, and the rate of a point (document 01, part 9).
#![tactic(auto)]

ghost use Rattle.std.specs.Prelude.{◌≡◌, true, false};
ghost use Rattle.base_fields.specs.Answer.{and_then};
ghost use Rattle.group_sgpd.specs.Sgpd.{sgpd};
ghost use Rattle.group_fragments.specs.Fragments.{local_bit, part_in, described_at, GivesDescribed, plain_index, rate_of};
ghost use Rattle.group_fragments.specs.Told.{told_part};

use base_fields::refusal::Refusal;
use base_fields::{INPUT_LIMIT, Part, bytes_at};
use base_ids::DescriptionIndex;

// An index of a csgp in a fragment: the index alone, and whether its description is the fragment's own.
#[derive(Clone, Copy)]
pub struct CsgpIndex {
    pub index: DescriptionIndex,
    pub fragment_local: bool,
}

// Where the description of an index is: the payload that has it, and the place and the length of its bytes there.
#[derive(Clone, Copy)]
pub enum FoundPart {
    Film(Part),
    Fragment(Part),
}

const LOCAL_BIT: u32 = 0x8000_0000;

// Parts bit 31 from the index.
pub fn split_csgp_index(raw: u32) -> CsgpIndex
    ensures { (result.index.0 ≡ plain_index raw) × (result.fragment_local ≡ local_bit raw) }
{
    CsgpIndex {
        index: DescriptionIndex(raw % LOCAL_BIT),
        fragment_local: raw / LOCAL_BIT % 2 == 1,
    }
}

// An entry of the film's payload, once both are read.
fn in_film(
    film: &[u8],
    fragment: &[u8],
    index: DescriptionIndex,
) -> Result<Option<FoundPart>, Refusal>
    ensures { told_part result ≡ and_then (sgpd film.now) (λ wide. and_then (sgpd fragment.now) (λ own. part_in false wide index.0)) }
{
    let found = group_sgpd::entry_place(film, index)?;
    group_sgpd::parse_sgpd(fragment)?;
    Ok(found.map(FoundPart::Film))
}

// An entry of the fragment's payload, once both are read.
fn in_fragment(
    film: &[u8],
    fragment: &[u8],
    index: DescriptionIndex,
) -> Result<Option<FoundPart>, Refusal>
    ensures { told_part result ≡ and_then (sgpd film.now) (λ wide. and_then (sgpd fragment.now) (λ own. part_in true own index.0)) }
{
    group_sgpd::parse_sgpd(film)?;
    let found = group_sgpd::entry_place(fragment, index)?;
    Ok(found.map(FoundPart::Fragment))
}

// The place and the length of the entry that an index names, in the payload that bit 31 picks.
pub fn described_place(film: &[u8], fragment: &[u8], raw: u32) -> Result<Option<FoundPart>, Refusal>
    ensures { told_part result ≡ described_at film.now fragment.now raw }
{
    if INPUT_LIMIT < film.len() {
        return Err(Refusal::InputTooLong);
    }
    if INPUT_LIMIT < fragment.len() {
        return Err(Refusal::InputTooLong);
    }
    let split = split_csgp_index(raw);
    let index = split.index;
    if split.fragment_local {
        return in_fragment(film, fragment, index);
    }
    in_film(film, fragment, index)
}

// The entry's part of that payload; empty where `described_place` gives no place.
pub fn described<'a>(film: &'a [u8], fragment: &'a [u8], raw: u32) -> &'a [u8]
    ensures { GivesDescribed (described_at film.now fragment.now raw) film.now fragment.now film.entry.ref_ptr fragment.entry.ref_ptr result.now result.ref_ptr }
{
    match described_place(film, fragment, raw) {
        Ok(Some(FoundPart::Film(part))) => bytes_at(film, part.place, part.size),
        Ok(Some(FoundPart::Fragment(part))) => bytes_at(fragment, part.place, part.size),
        Ok(None) => bytes_at(film, 0, 0),
        Err(_) => bytes_at(film, 0, 0),
    }
}

// The bitrate of a point, of which a share is given in percent: rounded to the nearest, an exact half to the even one.
pub fn rate_of_point(bitrate: u32, share: u16) -> u64
    ensures { result ≡ rate_of bitrate share }
{
    let product = (bitrate as u64) * (share as u64);
    let hundreds = product / 100;
    let rest = product % 100;
    if rest < 50 {
        return hundreds;
    }
    if 50 < rest {
        return hundreds + 1;
    }
    hundreds + hundreds % 2
}
