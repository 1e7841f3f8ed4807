// The bodies of atoms (document 01, part 2).
ghost use Rattle.std.specs.Prelude.{◌≡◌, ◌+◌, ◌≤◌};
ghost use Rattle.std.proofs.Math.Option.{none, some};
ghost use Rattle.atom_tree.specs.Atom.{declared_at, body_at, present, last_place};
ghost use Rattle.atom_tree.specs.Told.{told_payload};

use super::{BodyAt, read_atom_header};
use base_fields::refusal::Refusal;

// The largest body that is read.
const MAX_INMEMORY_ATOM_BODY: u64 = 67108864;

// The body that the header at a place declares, wherever it ends.
fn declared_payload(s: &[u8], at: u64) -> Result<Option<BodyAt>, Refusal>
    ensures { told_payload result ≡ declared_at s.now at }
{
    let read = read_atom_header(s, at);
    let Ok(Some(h)) = read else {
        match read {
            Err(refusal) => return Err(refusal),
            _ => return Ok(None),
        }
    };
    let total = h.total_size;
    match total {
        Some(size) => Ok(Some(BodyAt {
            place: h.payload_offset,
            size: size - h.header_len,
        })),
        None => Err(Refusal::OpenBody),
    }
}

// A body of a size at a place, where it is small enough and all of its bytes are there.
fn present_payload(s: &[u8], place: u64, size: u64) -> Result<Option<BodyAt>, Refusal>
    requires { place + size ≤ last_place }
    ensures { told_payload result ≡ present s.now none (record { place = place; size = size }) }
{
    if MAX_INMEMORY_ATOM_BODY < size {
        return Err(Refusal::BodyOverLimit);
    }
    if (s.len() as u64) < place + size {
        return Err(Refusal::BodyCut);
    }
    Ok(Some(BodyAt { place, size }))
}

// The place and the length of the body of the atom at a place.
pub fn read_payload(s: &[u8], at: u64) -> Result<Option<BodyAt>, Refusal>
    ensures { told_payload result ≡ body_at s.now at none }
{
    let body = declared_payload(s, at);
    let Ok(Some(BodyAt { place, size })) = body else {
        return body;
    };
    present_payload(s, place, size)
}

// The same under an envelope of `max_remaining` bytes.
pub fn read_payload_bounded(
    s: &[u8],
    at: u64,
    max_remaining: u64,
) -> Result<Option<BodyAt>, Refusal>
    ensures { told_payload result ≡ body_at s.now at (some max_remaining) }
{
    let body = declared_payload(s, at);
    let Ok(Some(BodyAt { place, size })) = body else {
        return body;
    };
    if max_remaining < size {
        return Err(Refusal::BodyOverEnvelope);
    }
    present_payload(s, place, size)
}
