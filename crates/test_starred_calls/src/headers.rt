// Atom headers.
ghost use Rattle.test_starred.specs.Case.{AllHold};
ghost use Rattle.test_starred_calls.specs.Headers.{headers_answered};

use atom_tree::{AtomHeader, BodyAt, read_atom_header, read_payload};
use base_fields::refusal::Refusal;

#[derive(Clone, Copy)]
pub struct HeaderAnswers {
    pub no_bytes: Result<Option<AtomHeader>, Refusal>,
    pub size_7: Result<Option<AtomHeader>, Refusal>,
    pub size_8: Result<Option<AtomHeader>, Refusal>,
    pub body_of_8: Result<Option<BodyAt>, Refusal>,
    pub extended_15: Result<Option<AtomHeader>, Refusal>,
    pub extended_16: Result<Option<AtomHeader>, Refusal>,
    // Size 2^64 - 1, at place 0 and at place 8.
    pub largest: Result<Option<AtomHeader>, Refusal>,
    pub far_end: Result<Option<AtomHeader>, Refusal>,
}

pub fn header_calls() -> HeaderAnswers
    ensures { AllHold (headers_answered result) }
{
    HeaderAnswers {
        no_bytes: read_atom_header(b"", 0),
        size_7: read_atom_header(b"\x00\x00\x00\x07free", 0),
        size_8: read_atom_header(b"\x00\x00\x00\x08free", 0),
        body_of_8: read_payload(b"\x00\x00\x00\x08free", 0),
        extended_15: read_atom_header(b"\x00\x00\x00\x01free\x00\x00\x00\x00\x00\x00\x00\x0f", 0),
        extended_16: read_atom_header(b"\x00\x00\x00\x01free\x00\x00\x00\x00\x00\x00\x00\x10", 0),
        largest: read_atom_header(b"\x00\x00\x00\x01free\xff\xff\xff\xff\xff\xff\xff\xff", 0),
        far_end: read_atom_header(
            b"\x00\x00\x00\x08free\x00\x00\x00\x01free\xff\xff\xff\xff\xff\xff\xff\xff",
            8,
        ),
    }
}
