// A play head over rows in a lent run of numbers (document 02, A8): by value, then over a head that is lent.
#![tactic(auto)]

mod row_walk;

ghost use Rattle.std.specs.Prelude.{◌≡◌, ◌≤◌, drop};
ghost use Rattle.base_fields.specs.Answer.{refused};
ghost use Rattle.table_rows.specs.Row.{rows_of};
ghost use Rattle.table_play_head.specs.Play.{last_sample};
ghost use Rattle.table_play_head.specs.Head.{fresh_head, onward};
ghost use Rattle.table_play_head.specs.Turn.{GivesTurn, set_told, GivesMove};

use base_fields::refusal::Refusal;
use base_ids::{DescriptionIndex, RECORD_LIMIT, RowNumber, SampleNumber};
use row_walk::{index_of, walk_from};
use table_rows::record::record_count;

// Before sample 0, or at a sample: its number, the row that covers it, and the samples of that row before it. Its numbers are as wide as
// a sum of counts, whatever the width of a count (A13).
#[derive(Clone, Copy)]
pub struct PlayHead {
    pub fresh: bool,
    pub sample: u64,
    pub row: usize,
    pub within: u64,
}

// The head after a call, and what the call answers: the index of its sample, or a refusal, which leaves the head as it was.
#[derive(Clone, Copy)]
pub struct Turn {
    pub head: PlayHead,
    pub found: Result<DescriptionIndex, Refusal>,
}

// The greatest sample that a head stands at.
const LAST_SAMPLE: u64 = 4294967295;

// The head that a caller begins with.
pub fn fresh_head() -> PlayHead
    ensures { result ≡ fresh_head }
{
    PlayHead {
        fresh: true,
        sample: 0,
        row: 0,
        within: 0,
    }
}

// The head moved on by one sample: a walk from its row on. Within a row there are no more samples before a sample than before it in all;
// a head of which that is not so was not made by calls.
fn moved(rows: &[RowNumber], head: PlayHead) -> PlayHead
    ensures { head.within ≤ head.sample → result ≡ onward last_sample head (drop head.row (rows_of rows.now)) }
{
    let row = head.row;
    if head.fresh {
        let first = walk_from(rows, row, 0);
        return PlayHead {
            fresh: false,
            sample: 0,
            row: first.row,
            within: first.within,
        };
    }
    if record_count(rows) <= row {
        return head;
    }
    let sample = head.sample;
    if LAST_SAMPLE <= sample {
        return head;
    }
    let within = head.within;
    if sample < within {
        return head;
    }
    let after = sample + 1;
    let next = walk_from(rows, row, within + 1);
    PlayHead {
        fresh: false,
        sample: after,
        row: next.row,
        within: next.within,
    }
}

// Over more records than are read the head stays.
fn too_many(head: PlayHead) -> Turn
    ensures { GivesTurn (refused 55) head result }
{
    Turn {
        head,
        found: Err(Refusal::InputTooLong),
    }
}

// A head set to a sample, or to the end where that comes before.
pub fn set_by_value(head: PlayHead, rows: &[RowNumber], sample: SampleNumber) -> Turn
    ensures { GivesTurn (set_told rows.now sample.0) head result }
{
    if RECORD_LIMIT < record_count(rows) {
        return too_many(head);
    }
    let k = sample.0 as u64;
    let to = walk_from(rows, 0, k);
    let reached = k - to.past;
    let row = to.row;
    let next = PlayHead {
        fresh: false,
        sample: reached,
        row,
        within: to.within,
    };
    let index = index_of(rows, row);
    Turn {
        head: next,
        found: Ok(DescriptionIndex(index)),
    }
}

// A head moved on by one sample.
pub fn move_by_value(head: PlayHead, rows: &[RowNumber]) -> Turn
    ensures { GivesMove rows.now head result }
{
    if RECORD_LIMIT < record_count(rows) {
        return too_many(head);
    }
    let next = moved(rows, head);
    let row = next.row;
    let index = index_of(rows, row);
    Turn {
        head: next,
        found: Ok(DescriptionIndex(index)),
    }
}

// A lent head set to a sample, or to the end where that comes before.
pub fn play_set(
    head: &mut PlayHead,
    rows: &[RowNumber],
    sample: SampleNumber,
) -> Result<DescriptionIndex, Refusal>
    ensures { GivesTurn (set_told rows.now sample.0) head.entry.now (record { head = head.exit.now; found = result }) }
{
    let t = set_by_value(*head, rows, sample);
    *head = t.head;
    t.found
}

// A lent head moved on by one sample.
pub fn play_move(head: &mut PlayHead, rows: &[RowNumber]) -> Result<DescriptionIndex, Refusal>
    ensures { GivesMove rows.now head.entry.now (record { head = head.exit.now; found = result }) }
{
    let t = move_by_value(*head, rows);
    *head = t.head;
    t.found
}
