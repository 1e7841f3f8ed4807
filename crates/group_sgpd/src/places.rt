// All entries at once: the place and the length of each, in a lent run of numbers.
ghost use Rattle.std.specs.Prelude.{◌*◌, ◌≤◌, length, ◌≡◌};
ghost use Rattle.base_fields.specs.Answer.{overwritten};
ghost use Rattle.base_fields.specs.Records.{numbers_of, GivesRecords};
ghost use Rattle.group_sgpd.specs.Sgpd.{sgpd, all_entries};
ghost use Rattle.group_sgpd.specs.Head.{ReadWhole};

use super::spans::{lengths_by, span_at};
use super::{SgpdHead, read_sgpd};
use base_fields::refusal::Refusal;

// Writes place and length of each entry in front of the run.
fn put_places(s: &[u8], head: SgpdHead, run: &mut [u32])
    requires read_whole { ReadWhole s.now head }
    requires entry_count_in_bounds { 2 * head.entry_count ≤ length run.old }
    ensures { run.new ≡ overwritten (numbers_of (λ e. e.place) (λ e. e.size)) (sgpd s.now) run.old }
{
    let lengths = lengths_by(head.version, head.grouping_type, head.default_length);
    let count = head.entry_count;
    let mut at = head.first;
    for k in 0..count {
        match span_at(s, lengths, count, at) {
            Ok(part) => {
                let i = 2 * (k as usize);
                run[i] = part.place as u32;
                run[i + 1] = part.size as u32;
                at = part.place + part.size;
            }
            Err(_) => return,
        }
    }
}

// The place and the length of every entry, in front of the lent run. Nothing is written on refusal.
pub fn entry_places(s: &[u8], run: &mut [u32]) -> Result<u32, Refusal>
    ensures { GivesRecords (all_entries s.now run.old) (λ e. e.place) (λ e. e.size) run.old run.new result }
{
    let head = read_sgpd(s)?;
    let count = head.entry_count;
    if run.len() / 2 < (count as usize) {
        return Err(Refusal::NoRecordLeft);
    }
    put_places(s, head, run);
    Ok(count)
}
