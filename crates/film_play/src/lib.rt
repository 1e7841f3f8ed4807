// The C interface: a play head over rows in a lent run. In C a head is four numbers: whether it stands at a sample (0: fresh, before
// sample 0; any other: at a sample; written as 1), the sample, the row that covers it, and the samples of that row before it. Four zeros are a fresh head.
#![tactic(auto)]

ghost use Rattle.std.specs.Prelude.{◌≡◌};
ghost use Rattle.std.proofs.lemmas.List.Edits.{sets};
ghost use Rattle.base_fields.specs.Answer.{choose};
ghost use Rattle.table_play_head.specs.Turn.{set_told};
ghost use Rattle.film_play.specs.Play.{head_in_numbers, head_numbers, told_played, GivesPlay, GivesPlayMove};

use base_ids::{RowNumber, SampleCount, SampleNumber};
use table_play_head::{PlayHead, Turn};

// The head that four numbers are.
fn head_in(head: &[u64; 4]) -> PlayHead
    ensures { result ≡ head_in_numbers head.now }
{
    PlayHead {
        fresh: head[0] == 0,
        sample: head[1],
        row: head[2] as usize,
        within: head[3],
    }
}

// 0 for a fresh head, 1 for one that stands at a sample.
fn standing(fresh: bool) -> u64
    ensures { result ≡ choose fresh 0 1 }
{
    if fresh { 0 } else { 1 }
}

// Hands the numbers of a head out.
fn put_head(h: PlayHead, head: &mut [u64; 4])
    ensures { head.new ≡ sets head.old 0 (head_numbers h) }
{
    head[0] = standing(h.fresh);
    head[1] = h.sample;
    head[2] = h.row as u64;
    head[3] = h.within;
}

// Hands out what a call gave; with a refusal nothing is written.
#[inline(always)]
fn put_turn(t: Turn, head: &mut [u64; 4], out: &mut [u64; 1]) -> u32
    ensures { GivesPlay (told_played t) head.old head.new out.old out.new result }
{
    let found = t.found;
    match found {
        Ok(i) => {
            put_head(t.head, head);
            out[0] = i.0 as u64;
            0
        }
        Err(refusal) => refusal.number(),
    }
}

// The head set to a sample, or to the end where that comes before. out: the index of its sample.
pub fn film_play_set(
    head: &mut [u64; 4],
    rows: &[RowNumber],
    sample: SampleCount,
    out: &mut [u64; 1],
) -> u32
    ensures { GivesPlay (set_told rows.now sample) head.old head.new out.old out.new result }
{
    let before = head_in(head);
    let t = table_play_head::set_by_value(before, rows, SampleNumber(sample));
    put_turn(t, head, out)
}

// The head moved on by one sample. out: the index of its sample.
pub fn film_play_move(head: &mut [u64; 4], rows: &[RowNumber], out: &mut [u64; 1]) -> u32
    ensures { GivesPlayMove rows.now head.old head.new out.old out.new result }
{
    let before = head_in(head);
    let t = table_play_head::move_by_value(before, rows);
    put_turn(t, head, out)
}
