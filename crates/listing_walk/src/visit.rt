// A child of an stbl's body, by its type.
ghost use Rattle.std.specs.Prelude.{◌≡◌, length};
ghost use Rattle.base_fields.specs.Refusal.{number};
ghost use Rattle.atom_tree.specs.Told.{header_of, span_of};
ghost use Rattle.listing_spec.specs.Walk.{visit_table, visit_sgpd};
ghost use Rattle.listing_spec.specs.Walk as walk;
ghost use Rattle.listing_walk.specs.Told.{taken_as};
ghost use Rattle.listing_walk.specs.Seen.{EndsInside, named_body, take_table, take_sgpd, taken_of, told_named, told_visited};

use super::Seen;
use atom_tree::{AtomHeader, BodyAt};
use base_fields::read_u32;
use base_fields::refusal::Refusal;
use table_front::TableKind;

// Types of children, four bytes as one number.
const SBGP: u32 = 0x7362_6770;

const CSGP: u32 = 0x6373_6770;

const SGPD: u32 = 0x7367_7064;

// The body of a child that is looked at: open 8, under 8 bytes `short`, then by its grouping type.
fn named_body(
    s: &[u8],
    grouping_type: u32,
    short: Refusal,
    h: AtomHeader,
) -> Result<Option<BodyAt>, Refusal>
    requires { EndsInside (length s.now) (header_of h) }
    ensures { told_named result ≡ named_body s.now grouping_type (number short) (header_of h) }
{
    let total = h.total_size;
    match total {
        None => Err(Refusal::OpenBody),
        Some(n) => {
            let place = h.payload_offset;
            let size = n - h.header_len;
            if size < 8 {
                return Err(short);
            }
            let grouping = read_u32(s, place as usize + 4);
            if grouping == grouping_type {
                Ok(Some(BodyAt { place, size }))
            } else {
                Ok(None)
            }
        }
    }
}

// A table is taken; 51 where there is one already.
fn take_table(seen: Seen, kind: TableKind, body: BodyAt) -> Result<Seen, Refusal>
    ensures { told_visited result ≡ take_table (taken_as kind) (taken_of seen) (span_of body) }
{
    let table = seen.table;
    let sgpd = seen.sgpd;
    match table {
        None => Ok(Seen {
            table: Some((kind, body)),
            sgpd,
        }),
        Some(_) => Err(Refusal::SecondTable),
    }
}

// An sgpd is taken; 53 where there is one already.
fn take_sgpd(seen: Seen, body: BodyAt) -> Result<Seen, Refusal>
    ensures { told_visited result ≡ take_sgpd (taken_of seen) (span_of body) }
{
    let table = seen.table;
    let sgpd = seen.sgpd;
    match sgpd {
        None => Ok(Seen {
            table,
            sgpd: Some(body),
        }),
        Some(_) => Err(Refusal::SecondSgpd),
    }
}

// An sbgp or a csgp: taken where it has the named type.
fn visit_table(
    s: &[u8],
    grouping_type: u32,
    kind: TableKind,
    h: AtomHeader,
    seen: Seen,
) -> Result<Seen, Refusal>
    requires { EndsInside (length s.now) (header_of h) }
    ensures { told_visited result ≡ visit_table s.now grouping_type (taken_as kind) (header_of h) (taken_of seen) }
{
    match named_body(s, grouping_type, Refusal::ShortTable, h)? {
        Some(body) => take_table(seen, kind, body),
        None => Ok(seen),
    }
}

// An sgpd: taken where it has the named type.
fn visit_sgpd(s: &[u8], grouping_type: u32, h: AtomHeader, seen: Seen) -> Result<Seen, Refusal>
    requires { EndsInside (length s.now) (header_of h) }
    ensures { told_visited result ≡ visit_sgpd s.now grouping_type (header_of h) (taken_of seen) }
{
    match named_body(s, grouping_type, Refusal::ShortSgpd, h)? {
        Some(body) => take_sgpd(seen, body),
        None => Ok(seen),
    }
}

// A child, where its body ends inside the stbl's.
pub fn visit(s: &[u8], grouping_type: u32, h: AtomHeader, seen: Seen) -> Result<Seen, Refusal>
    requires { EndsInside (length s.now) (header_of h) }
    ensures { told_visited result ≡ walk.visit s.now grouping_type (header_of h) (taken_of seen) }
{
    let fourcc = h.fourcc;
    match fourcc {
        SBGP => visit_table(s, grouping_type, TableKind::Sbgp, h, seen),
        CSGP => visit_table(s, grouping_type, TableKind::Csgp, h, seen),
        SGPD => visit_sgpd(s, grouping_type, h, seen),
        _ => Ok(seen),
    }
}
