// One level of the path: all of its atoms are walked, then the one that was looked for is used.
ghost use Rattle.std.specs.Prelude.{◌≡◌, true, List, [], ◌∷◌, ℕ, ◌+◌, ◌-◌, ◌<◌, ◌≤◌, eqb, length};
ghost use Rattle.base_fields.specs.Answer.{choose, and_then, input_limit};
ghost use Rattle.base_fields.specs.Span.{Span};
ghost use Rattle.atom_tree.specs.Atom.{Sound};
ghost use Rattle.base_fields.specs.Refusal.{number};
ghost use Rattle.atom_tree.specs.Told.{header_of, child_of, span_of, told_child};
ghost use Rattle.atom_path.specs.Path.{end_in, atom_at, body_span, present_at, at_level};
ghost use Rattle.atom_path.specs.Told.{told_body, level_of, levels_left, sought_in, LevelGives};

use atom_tree::{AtomHeader, BodyAt, Child, next_child, read_atom_header};
use base_fields::refusal::Refusal;

// Types of containers, four bytes as one number.
const MOOV: u32 = 0x6d6f_6f76;

const TRAK: u32 = 0x7472_616b;

const MDIA: u32 = 0x6d64_6961;

const MINF: u32 = 0x6d69_6e66;

const STBL: u32 = 0x7374_626c;

// What is looked for in a level: which atom of a type, from 0, and the refusal where it is missing.
#[derive(Clone, Copy)]
pub struct PathLevel {
    pub fourcc: u32,
    pub number: u32,
    pub missing: Refusal,
    pub top: bool,
}

// The search within a level.
#[derive(Clone, Copy)]
enum Sought {
    // So many atoms of the type are passed over before the one that is looked for.
    Ahead(u32),
    Found(BodyAt),
}

fn level(fourcc: u32, which: u32, missing: Refusal, top: bool) -> PathLevel
    ensures { level_of result ≡ record { type = fourcc; number = which; missing = number missing; top = top } }
{
    PathLevel {
        fourcc,
        number: which,
        missing,
        top,
    }
}

// The level with so many levels to go, itself among them.
fn level_with(levels: u32, track: u32) -> PathLevel
    requires { (0 < levels) × (levels ≤ 5) }
    ensures { (levels_left levels track ≡ level_of result ∷ levels_left (levels - 1) track) × (result.top ≡ eqb levels 5) }
{
    match levels {
        5 => level(MOOV, 0, Refusal::NoTrack, true),
        4 => level(TRAK, track, Refusal::NoTrack, false),
        3 => level(MDIA, 0, Refusal::NoContainer, false),
        2 => level(MINF, 0, Refusal::NoContainer, false),
        _ => level(STBL, 0, Refusal::NoContainer, false),
    }
}

// Where an atom at the top ends, which may pass the given bytes; an open one ends with them.
fn top_end(h: AtomHeader, at: u64, end: u64) -> u64
    requires { Sound at (header_of h) }
    ensures { result ≡ end_in end at (header_of h).size }
{
    let size = h.total_size;
    match size {
        Some(n) => at + n,
        None => end,
    }
}

fn top_atom(s: &[u8], end: u64, at: u64) -> Result<Option<Child>, Refusal>
    ensures { told_child result ≡ atom_at true s.now end at }
{
    let Some(head) = read_atom_header(s, at)? else {
        return Ok(None);
    };
    let next = top_end(head, at, end);
    Ok(Some(Child { head, next }))
}

// The atom at a place of a level, and the place of the next one.
fn next_atom(s: &[u8], top: bool, end: u64, at: u64) -> Result<Option<Child>, Refusal>
    ensures { told_child result ≡ atom_at top s.now end at }
{
    if top {
        top_atom(s, end, at)
    } else {
        next_child(s, at, Some(end))
    }
}

// The body of an atom, up to the next one's place: empty where its header passes that.
fn body_of(atom: Child) -> BodyAt
    ensures { span_of result ≡ body_span (child_of atom) }
{
    let place = atom.head.payload_offset;
    let next = atom.next;
    if place < next {
        BodyAt {
            place,
            size: next - place,
        }
    } else {
        BodyAt { place, size: 0 }
    }
}

// The search behind an atom.
fn search_behind(sought: Sought, fourcc: u32, atom: Child) -> Sought
    ensures { (missing : ℕ) (rest : List Span) → sought_in result missing rest ≡ sought_in sought missing (choose (eqb (child_of atom).head.type fourcc) (body_span (child_of atom) ∷ rest) rest) }
{
    match sought {
        Sought::Found(body) => Sought::Found(body),
        Sought::Ahead(n) => {
            if atom.head.fourcc != fourcc {
                return Sought::Ahead(n);
            }
            if n == 0 {
                return Sought::Found(body_of(atom));
            }
            Sought::Ahead(n - 1)
        }
    }
}

// The first moov is 11 where it passes the given bytes.
fn present_body(s: &[u8], top: bool, body: BodyAt) -> Result<BodyAt, Refusal>
    ensures { told_body result ≡ present_at top s.now (span_of body) }
{
    if top {
        let n = s.len() as u64;
        if n < body.size {
            return Err(Refusal::BodyCut);
        }
        if n - body.size < body.place {
            return Err(Refusal::BodyCut);
        }
    }
    Ok(body)
}

// Behind the last atom of a level.
fn found_in(s: &[u8], level: PathLevel, sought: Sought) -> Result<BodyAt, Refusal>
    ensures { told_body result ≡ and_then (sought_in sought (number level.missing) []) (present_at level.top s.now) }
{
    match sought {
        Sought::Ahead(_) => Err(level.missing),
        Sought::Found(body) => present_body(s, level.top, body),
    }
}

// Walks a level to its end, and gives the body of the atom that is looked for.
fn find_in_level(s: &[u8], level: PathLevel, parent: BodyAt) -> Result<BodyAt, Refusal>
    requires { (length s.now ≤ input_limit) × (parent.place + parent.size ≤ length s.now) × (level.top ≡ true → parent.place + parent.size ≡ length s.now) }
    ensures { told_body result ≡ at_level s.now (level_of level) (span_of parent) }
{
    let top = level.top;
    let fourcc = level.fourcc;
    let end = parent.place + parent.size;
    let mut at = parent.place;
    let mut sought = Sought::Ahead(level.number);
    while let Some(atom) = next_atom(s, top, end, at)? {
        sought = search_behind(sought, fourcc, atom);
        at = atom.next;
    }
    found_in(s, level, sought)
}

// The level with so many levels to go, itself among them, in the container at a place.
pub fn search_level(
    s: &[u8],
    track: u32,
    levels: u32,
    place: u64,
    size: u64,
) -> Result<BodyAt, Refusal>
    requires { (length s.now ≤ input_limit) × (0 < levels) × (levels ≤ 5) × (place + size ≤ length s.now) × (levels ≡ 5 → place + size ≡ length s.now) }
    ensures { LevelGives s.now levels track (record { place = place; size = size }) result }
{
    find_in_level(s, level_with(levels, track), BodyAt { place, size })
}
