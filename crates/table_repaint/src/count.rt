// The rows of a repaint counted; nothing is written.
ghost use Rattle.std.specs.Prelude.{◌≡◌, ◌≤◌, []};
ghost use Rattle.base_fields.specs.Refusal.{told_value};
ghost use Rattle.table_rows.specs.Row.{records_in};
ghost use Rattle.table_replay.specs.Enter.{tail_of};
ghost use Rattle.table_repaint.specs.Repaint.{stated_rows};
ghost use Rattle.table_repaint.specs.Cut.{run, three_runs, tail_run, tail_runs, tail_count};

use crate::pieces::least;
use base_fields::refusal::Refusal;
use base_ids::{RowNumber, SampleCount};
use table_replay::enter::{Tail, enter_run};
use table_rows::record::{count_at, description_at, record_count};

// A run joins the last row or begins a new one; an empty one does nothing.
fn enter_piece(tail: Tail, room: usize, count: SampleCount, index: u32) -> Result<Tail, Refusal>
    ensures { told_value result ≡ tail_run room tail (run count index) }
{
    if count == 0 {
        return Ok(tail);
    }
    enter_run(tail, room, count, index)
}

// A row of `count` samples, cut at `from` and `to`: what lies between has the index `paint`.
fn enter_pieces(
    tail: Tail,
    room: usize,
    count: SampleCount,
    index: u32,
    from: SampleCount,
    to: SampleCount,
    paint: u32,
) -> Result<Tail, Refusal>
    requires { (from ≤ to) × (to ≤ count) }
    ensures { told_value result ≡ tail_runs room tail (three_runs from to paint (run count index)) }
{
    let first = enter_piece(tail, room, from, index)?;
    let second = enter_piece(first, room, to - from, paint)?;
    enter_piece(second, room, count - to, index)
}

// The number of the new rows, with room for every record of the run, or 28 or 29.
pub fn count_repainted(
    rows: &[RowNumber],
    stated: usize,
    a: u64,
    b: u64,
    paint: u32,
) -> Result<usize, Refusal>
    requires { (stated ≤ records_in rows.now) × (a ≤ b) }
    ensures { told_value result ≡ tail_count (records_in rows.now) a b paint (tail_of []) (stated_rows rows.now stated) }
{
    let room = record_count(rows);
    let mut tail = Tail {
        rows: 0,
        count: 0,
        index: 0,
    };
    let mut from = a;
    let mut to = b;
    for j in 0..stated {
        let count = count_at(rows, j);
        let index = description_at(rows, j);
        let x = least(count, from);
        let y = least(count, to);
        tail = enter_pieces(tail, room, count, index, x, y, paint)?;
        from -= x as u64;
        to -= y as u64;
    }
    Ok(tail.rows)
}
