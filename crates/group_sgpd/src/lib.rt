// The sample group description atom sgpd (document 01, part 6).
#![tactic(auto)]

mod cursor;
mod head;
mod lookup;
mod marks;
mod places;
mod spans;

ghost use Rattle.std.specs.Prelude.{◌≡◌};
ghost use Rattle.base_fields.specs.Answer.{and_then, given};
ghost use Rattle.base_fields.specs.Refusal.{told_value};
ghost use Rattle.group_sgpd.specs.Sgpd.{parse_sgpd, sgpd};
ghost use Rattle.group_sgpd.specs.Told.{told_sgpd};
ghost use Rattle.group_sgpd.specs.Head.{head_of};

use base_fields::Part;
use base_fields::refusal::Refusal;
use base_ids::DescriptionIndex;
use head::sgpd_head;
pub use lookup::{entry, entry_place};
pub use marks::{MARKS, entry_marks, marked_entry};
pub use places::entry_places;
use spans::skip_all;

#[derive(Clone, Copy)]
pub struct SampleGroupDescription {
    pub version: u8,
    pub grouping_type: u32,
    pub default_length: u32,
    // Carried, not used.
    pub default_sample_description_index: u32,
    pub entry_count: u32,
}

// Where an entry starts: its number and its place.
#[derive(Clone, Copy)]
pub struct EntryCursor {
    pub index: DescriptionIndex,
    pub place: usize,
}

// An entry, and the cursor from which the next one is looked for.
#[derive(Clone, Copy)]
pub struct EntryStep {
    pub found: Result<Option<Part>, Refusal>,
    pub cursor: EntryCursor,
}

// The fixed fields, and the place of the first entry.
#[derive(Clone, Copy)]
pub struct SgpdHead {
    pub version: u8,
    pub grouping_type: u32,
    pub default_length: u32,
    pub default_sample_description_index: u32,
    pub entry_count: u32,
    pub first: usize,
}

// What tells an entry's length.
#[derive(Clone, Copy)]
enum Lengths {
    // All entries have this one.
    Fixed(u32),
    // It stands before each entry.
    Prefixed,
    // The bytes still left are divided by the whole count.
    Shared,
}

// The head, once the whole payload is read.
pub fn read_sgpd(s: &[u8]) -> Result<SgpdHead, Refusal>
    ensures { told_value result ≡ and_then (sgpd s.now) (λ es. given (head_of s.now)) }
{
    let head = sgpd_head(s)?;
    skip_all(s, head)?;
    Ok(head)
}

// Reads a whole sgpd payload.
pub fn parse_sgpd(s: &[u8]) -> Result<SampleGroupDescription, Refusal>
    ensures { told_sgpd result ≡ parse_sgpd s.now }
{
    let head = read_sgpd(s)?;
    Ok(SampleGroupDescription {
        version: head.version,
        grouping_type: head.grouping_type,
        default_length: head.default_length,
        default_sample_description_index: head.default_sample_description_index,
        entry_count: head.entry_count,
    })
}
