// The walk of an stbl's body (document 01, part 8): where the table and the descriptions of a grouping type stand.
#![tactic(auto)]

mod visit;

ghost use Rattle.std.specs.Prelude.{◌≡◌};
ghost use Rattle.listing_spec.specs.Walk.{found, sources};
ghost use Rattle.listing_walk.specs.Told.{told_sources};
ghost use Rattle.listing_walk.specs.Seen.{taken_of};

use atom_tree::BodyAt;
use base_fields::INPUT_LIMIT;
use base_fields::refusal::Refusal;
use table_front::TableKind;
use visit::visit;

// The place and the length of the bodies of the table and of the sgpd.
#[derive(Clone, Copy)]
pub struct SourcesAt {
    pub kind: TableKind,
    pub table_place: usize,
    pub table_size: usize,
    pub sgpd_place: usize,
    pub sgpd_size: usize,
}

// What the walk has taken so far.
#[derive(Clone, Copy)]
struct Seen {
    table: Option<(TableKind, BodyAt)>,
    sgpd: Option<BodyAt>,
}

// After the walk: no table 50, no sgpd 52.
fn sources_of(seen: Seen) -> Result<SourcesAt, Refusal>
    ensures { told_sources result ≡ found (taken_of seen) }
{
    let (kind, table) = seen.table.ok_or(Refusal::NoTable)?;
    let sgpd = seen.sgpd.ok_or(Refusal::NoSgpd)?;
    Ok(SourcesAt {
        kind,
        table_place: table.place as usize,
        table_size: table.size as usize,
        sgpd_place: sgpd.place as usize,
        sgpd_size: sgpd.size as usize,
    })
}

// The table and the sgpd of a grouping type in an stbl's body.
pub fn find_sources(s: &[u8], grouping_type: u32) -> Result<SourcesAt, Refusal>
    ensures { told_sources result ≡ sources s.now grouping_type }
{
    if INPUT_LIMIT < s.len() {
        return Err(Refusal::InputTooLong);
    }
    let end = s.len() as u64;
    let mut at: u64 = 0;
    let mut seen = Seen {
        table: None,
        sgpd: None,
    };
    while let Some(child) = atom_tree::next_child(s, at, Some(end))? {
        seen = visit(s, grouping_type, child.head, seen)?;
        at = child.next;
    }
    sources_of(seen)
}
