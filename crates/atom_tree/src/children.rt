// The children of a container (document 01, part 2).
ghost use Rattle.std.specs.Prelude.{◌≡◌, ◌+◌, ◌≤◌, length};
ghost use Rattle.base_fields.specs.Answer.{and_then, input_limit};
ghost use Rattle.atom_tree.specs.Atom.{header_at, child_at, past_end, end_of, inside, Sound};
ghost use Rattle.atom_tree.specs.Told.{size_of, parent_end, header_of, told_child};

use super::header::header_within;
use super::{AtomHeader, Child};
use base_fields::INPUT_LIMIT;
use base_fields::refusal::Refusal;

// A child that ends at `next`, in a container that ends at `end`.
fn child_inside(h: AtomHeader, next: u64, end: Option<u64>) -> Result<Option<Child>, Refusal>
    ensures { told_child result ≡ inside (parent_end end) (header_of h) next }
{
    match end {
        Some(limit) => {
            if limit < next {
                Err(Refusal::ChildPastParent)
            } else {
                Ok(Some(Child { head: h, next }))
            }
        }
        None => Ok(Some(Child { head: h, next })),
    }
}

// A child by its header: a sized one ends by its size, an open one with its parent.
fn child_of(h: AtomHeader, at: u64, end: Option<u64>) -> Result<Option<Child>, Refusal>
    requires { Sound at (header_of h) }
    ensures { told_child result ≡ and_then (end_of at (size_of h.total_size) (parent_end end)) (inside (parent_end end) (header_of h)) }
{
    let size = h.total_size;
    match size {
        Some(n) => child_inside(h, at + n, end),
        None => match end {
            Some(limit) => Ok(Some(Child {
                head: h,
                next: limit,
            })),
            None => Err(Refusal::OpenChild),
        },
    }
}

// The child at a place that is before its parent's end, if that is known, of an input within the limit.
fn child_at(s: &[u8], at: u64, end: Option<u64>) -> Result<Option<Child>, Refusal>
    requires { length s.now ≤ input_limit }
    ensures { told_child result ≡ and_then (header_at s.now at) (λ h. and_then (end_of at h.size (parent_end end)) (inside (parent_end end) h)) }
{
    let read = header_within(s, at);
    let Ok(Some(h)) = read else {
        match read {
            Err(refusal) => return Err(refusal),
            _ => return Ok(None),
        }
    };
    child_of(h, at, end)
}

// The place is at or past the container's end, if that is known.
fn past_end(at: u64, end: Option<u64>) -> bool
    ensures { result ≡ past_end at (parent_end end) }
{
    match end {
        Some(limit) => limit <= at,
        None => false,
    }
}

// The child at a place of a container, and the place of the next one. None, without reading, at or past the container's end.
pub fn next_child(s: &[u8], at: u64, end: Option<u64>) -> Result<Option<Child>, Refusal>
    ensures { told_child result ≡ child_at s.now at (parent_end end) }
{
    if INPUT_LIMIT < s.len() {
        return Err(Refusal::InputTooLong);
    }
    if past_end(at, end) {
        return Ok(None);
    }
    child_at(s, at, end)
}
