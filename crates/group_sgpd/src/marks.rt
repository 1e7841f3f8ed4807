// An entry with a length of its own is found by walking from the first one. Sixteen landmarks, each the place of an entry, cut the way.
ghost use Rattle.std.specs.Prelude.{◌≡◌};
ghost use Rattle.group_sgpd.specs.Sgpd.{entry_at};
ghost use Rattle.group_sgpd.specs.Told.{told_entry};
ghost use Rattle.group_sgpd.specs.Head.{ReadWhole};
ghost use Rattle.group_sgpd.specs.Marks.{marks_apart, Marks};

use super::cursor::entry_onward;
use super::spans::{lengths_by, skip};
use super::{EntryCursor, SgpdHead};
use base_fields::Part;
use base_fields::refusal::Refusal;
use base_ids::DescriptionIndex;

// How many landmarks there are.
pub const MARKS: usize = 16;

// How many entries stand from one landmark to the next.
fn marks_apart(count: u32) -> u32
    ensures { result ≡ marks_apart count }
{
    count / 16 + 1
}

// The places of the entries 1, 1 + n, 1 + 2n, .. where n is marks_apart(head.entry_count).
pub fn entry_marks(s: &[u8], head: SgpdHead) -> [u32; 16]
    requires { ReadWhole s.now head }
    ensures { Marks s.now result }
{
    let lengths = lengths_by(head.version, head.grouping_type, head.default_length);
    let count = head.entry_count;
    let apart = marks_apart(count);
    let mut marks: [u32; 16] = [0; 16];
    let mut at = head.first;
    let mut left = count;
    for k in 0..MARKS {
        marks[k] = at as u32;
        if left <= apart {
            return marks;
        }
        match skip(s, lengths, count, at, apart) {
            Ok(p) => {
                at = p;
                left -= apart;
            }
            Err(_) => return marks,
        }
    }
    marks
}

// An entry of a payload that was read whole: from the landmark before it on.
pub fn marked_entry(
    s: &[u8],
    head: SgpdHead,
    marks: &[u32; 16],
    index: DescriptionIndex,
) -> Result<Option<Part>, Refusal>
    requires { (ReadWhole s.now head) × (Marks s.now marks.now) }
    ensures { told_entry result ≡ entry_at s.now index.0 }
{
    let i = index.0;
    if i == 0 {
        return Ok(None);
    }
    if head.entry_count < i {
        return Ok(None);
    }
    let apart = marks_apart(head.entry_count);
    let k = (i - 1) / apart;
    let at = k as usize;
    let place = marks[at] as usize;
    let cursor = EntryCursor {
        index: DescriptionIndex(k * apart + 1),
        place,
    };
    let step = entry_onward(s, head, cursor, index);
    step.found
}
