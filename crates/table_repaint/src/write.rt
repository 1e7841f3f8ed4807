// The new rows of a repaint written over the old ones, in place.
ghost use Rattle.std.specs.Prelude.{◌≡◌, ◌≤◌};
ghost use Rattle.table_rows.specs.Row.{records_in};
ghost use Rattle.table_repaint.specs.Repaint.{repainted, run_after};
ghost use Rattle.table_repaint.specs.Cut.{run, three_runs};
ghost use Rattle.table_repaint.specs.Pass.{work_in, with_last, put_run, put_runs};
ghost use Rattle.table_repaint.specs.Ready.{FitsRun, ReadyFor, AcceptedRepaint};

use crate::pieces::least;
use base_ids::{RowNumber, SampleCount};
use table_replay::enter::Tail;
use table_rows::record::{count_at, description_at, put_row};

// Stores the last new row.
fn store_last(rows: &mut [RowNumber], tail: Tail)
    requires { tail.rows ≤ records_in rows.old }
    ensures { rows.new ≡ with_last (work_in rows.old tail) }
{
    if 0 < tail.rows {
        put_row(rows, tail.rows - 1, tail.count, tail.index);
    }
}

// A run joins the last new row, or begins one; then the one before it is stored.
fn put_run(rows: &mut [RowNumber], tail: Tail, count: SampleCount, index: u32) -> Tail
    requires { FitsRun rows.old tail count index }
    ensures { work_in rows.new result ≡ put_run (work_in rows.old tail) (run count index) }
{
    if count == 0 {
        return tail;
    }
    if tail.rows == 0 {
        return Tail {
            rows: 1,
            count,
            index,
        };
    }
    if tail.index == index {
        let joined = tail.count + count;
        return Tail {
            rows: tail.rows,
            count: joined,
            index,
        };
    }
    store_last(rows, tail);
    let more = tail.rows + 1;
    Tail {
        rows: more,
        count,
        index,
    }
}

// A row of `count` samples, cut at `from` and `to`: what lies between has the index `paint`.
fn put_pieces(
    rows: &mut [RowNumber],
    tail: Tail,
    count: SampleCount,
    index: u32,
    from: SampleCount,
    to: SampleCount,
    paint: u32,
) -> Tail
    requires { (from ≤ to) × (to ≤ count) × ReadyFor (three_runs from to paint (run count index)) (work_in rows.old tail) }
    ensures { work_in rows.new result ≡ put_runs (work_in rows.old tail) (three_runs from to paint (run count index)) }
{
    let first = put_run(rows, tail, from, index);
    let second = put_run(rows, first, to - from, paint);
    put_run(rows, second, count - to, index)
}

// Writes the new rows over the old ones. One old row is read ahead.
pub fn write_repainted(rows: &mut [RowNumber], stated: usize, a: u64, b: u64, paint: u32)
    requires { AcceptedRepaint rows.old stated a b paint }
    ensures { rows.new ≡ run_after (repainted rows.old stated a b paint) rows.old }
{
    let mut tail = Tail {
        rows: 0,
        count: 0,
        index: 0,
    };
    let mut from = a;
    let mut to = b;
    let mut count = count_at(rows, 0);
    let mut index = description_at(rows, 0);
    for j in 1..stated {
        let next_count = count_at(rows, j);
        let next_index = description_at(rows, j);
        let x = least(count, from);
        let y = least(count, to);
        tail = put_pieces(rows, tail, count, index, x, y, paint);
        from -= x as u64;
        to -= y as u64;
        count = next_count;
        index = next_index;
    }
    let x = least(count, from);
    let y = least(count, to);
    let last = put_pieces(rows, tail, count, index, x, y, paint);
    store_last(rows, last);
}
