// The C interface: headers, children and bodies of atoms.
#![tactic(auto)]

ghost use Rattle.std.specs.Prelude.{◌≡◌};
ghost use Rattle.std.proofs.Math.Option.{none, some};
ghost use Rattle.atom_tree.specs.Atom.{header_at, child_at, body_at};
ghost use Rattle.atom_tree.specs.Told.{size_of, parent_end, told_header, told_child, told_payload};
ghost use Rattle.film_status.specs.Status.{Returns, body_numbers};
ghost use Rattle.film_atoms.specs.Atoms.{absent, or_zero, end_from, header_numbers, child_numbers};

use atom_tree::{AtomHeader, BodyAt, Child};
use base_fields::refusal::Refusal;
use film_status::NONE;

fn open_flag(size: Option<u64>) -> u64
    ensures { result ≡ absent (size_of size) }
{
    u64::from(size.is_none())
}

fn size_or_zero(size: Option<u64>) -> u64
    ensures { result ≡ or_zero (size_of size) }
{
    size.unwrap_or(0)
}

fn parent_end(known: u32, end: u64) -> Option<u64>
    ensures { parent_end result ≡ end_from known end }
{
    (known != 0).then_some(end)
}

// Hands a header out.
#[inline(always)]
fn put_header(read: Result<Option<AtomHeader>, Refusal>, out: &mut [u64; 5]) -> u32
    ensures { Returns (told_header read) header_numbers out.old out.new result }
{
    match read {
        Ok(Some(h)) => {
            let size = h.total_size;
            out[0] = h.fourcc as u64;
            out[1] = open_flag(size);
            out[2] = size_or_zero(size);
            out[3] = h.header_len;
            out[4] = h.payload_offset;
            0
        }
        Ok(None) => NONE,
        Err(refusal) => refusal.number(),
    }
}

// Hands a child out.
fn put_child(walked: Result<Option<Child>, Refusal>, out: &mut [u64; 6]) -> u32
    ensures { Returns (told_child walked) child_numbers out.old out.new result }
{
    match walked {
        Ok(Some(Child { head: h, next })) => {
            let size = h.total_size;
            out[0] = next;
            out[1] = h.fourcc as u64;
            out[2] = open_flag(size);
            out[3] = size_or_zero(size);
            out[4] = h.header_len;
            out[5] = h.payload_offset;
            0
        }
        Ok(None) => NONE,
        Err(refusal) => refusal.number(),
    }
}

// Hands a body out.
#[inline(always)]
fn put_payload(body: Result<Option<BodyAt>, Refusal>, out: &mut [u64; 2]) -> u32
    ensures { Returns (told_payload body) body_numbers out.old out.new result }
{
    match body {
        Ok(Some(BodyAt { place, size })) => {
            out[0] = place;
            out[1] = size;
            0
        }
        Ok(None) => NONE,
        Err(refusal) => refusal.number(),
    }
}

// out: type, open (0 or 1), total size (0 if open), header length, place of the body.
pub fn film_read_atom_header(s: &[u8], at: u64, out: &mut [u64; 5]) -> u32
    ensures { Returns (header_at s.now at) header_numbers out.old out.new result }
{
    put_header(atom_tree::read_atom_header(s, at), out)
}

// out: place of the next child, then the numbers of the child's header. The parent's end counts where `known` is not 0.
pub fn film_next_child(s: &[u8], at: u64, known: u32, end: u64, out: &mut [u64; 6]) -> u32
    ensures { Returns (child_at s.now at (end_from known end)) child_numbers out.old out.new result }
{
    put_child(atom_tree::next_child(s, at, parent_end(known, end)), out)
}

// out: place and length of the body.
pub fn film_read_payload(s: &[u8], at: u64, out: &mut [u64; 2]) -> u32
    ensures { Returns (body_at s.now at none) body_numbers out.old out.new result }
{
    put_payload(atom_tree::read_payload(s, at), out)
}

// The same under an envelope of `max_remaining` bytes.
pub fn film_read_payload_bounded(s: &[u8], at: u64, max_remaining: u64, out: &mut [u64; 2]) -> u32
    ensures { Returns (body_at s.now at (some max_remaining)) body_numbers out.old out.new result }
{
    put_payload(atom_tree::read_payload_bounded(s, at, max_remaining), out)
}
