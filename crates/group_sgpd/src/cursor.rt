// An entry from a cursor on.
ghost use Rattle.std.specs.Prelude.{◌≤◌};
ghost use Rattle.group_sgpd.specs.Head.{ReadWhole, OnEntry, GivesEntry};

use super::lookup::found_at;
use super::spans::{lengths_by, skip};
use super::{EntryCursor, EntryStep, SgpdHead};
use base_ids::DescriptionIndex;

// The entry of a number that the cursor has not passed.
pub(crate) fn entry_onward(
    s: &[u8],
    head: SgpdHead,
    cursor: EntryCursor,
    index: DescriptionIndex,
) -> EntryStep
    requires read_whole { ReadWhole s.now head }
    requires on_entry { OnEntry s.now cursor }
    requires index_le_index { (cursor.index.0 ≤ index.0) × (index.0 ≤ head.entry_count) }
    ensures { GivesEntry s.now index.0 index.0 result }
{
    let lengths = lengths_by(head.version, head.grouping_type, head.default_length);
    let count = head.entry_count;
    let place = cursor.place;
    match skip(s, lengths, count, place, index.0 - cursor.index.0) {
        Ok(at) => {
            let found = found_at(s, lengths, count, at);
            EntryStep {
                found,
                cursor: EntryCursor { index, place: at },
            }
        }
        // does not come up: the payload was read whole
        Err(refusal) => EntryStep {
            found: Err(refusal),
            cursor,
        },
    }
}
