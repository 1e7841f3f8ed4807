// The cue listing.
ghost use Rattle.test_starred.specs.Case.{AllHold};
ghost use Rattle.test_starred_calls.specs.Listing.{listing_answered};

use base_fields::refusal::Refusal;
use listing_cue::{CueLengths, cue_listing};

#[derive(Clone, Copy)]
pub struct ListingAnswer {
    pub told: Result<CueLengths, Refusal>,
    pub rows: [u32; 4],
    pub listing: [u8; 12],
}

// Type roll; an sbgp with rows (2,1),(1,0), then an sgpd with the entry 0xFFFE: 62 bytes. The lent rows and the output hold sevens.
pub fn listing_call() -> ListingAnswer
    ensures { AllHold (listing_answered result) }
{
    let body =
        b"\x00\x00\x00\x24sbgp\x00\x00\x00\x00roll\x00\x00\x00\x02\x00\x00\x00\x02\x00\x00\x00\x01\x00\x00\x00\x01\x00\x00\x00\x00\x00\x00\x00\x1asgpd\x01\x00\x00\x00roll\x00\x00\x00\x02\x00\x00\x00\x01\xff\xfe";
    let mut rows = [7u32; 4];
    let mut listing = [7u8; 12];
    let told = cue_listing(body, 0x726f6c6c, &mut rows, &mut listing);
    ListingAnswer {
        told,
        rows,
        listing,
    }
}
