// The C interface: a stretch of samples repainted in a lent run of rows, of which the first `stated` records are rows; and a preview of that.
#![tactic(auto)]

ghost use Rattle.table_repaint.specs.Repaint.{repainted, rows_counted};
ghost use Rattle.film_status.specs.Status.{Returns, one_number};
ghost use Rattle.film_repaint.specs.Repaint.{Repaints};

use base_ids::{DescriptionIndex, RowNumber};
use film_status::put_number;

// What the edit would return, and out: how many rows it would leave. Nothing else is written.
pub fn film_preview_repaint(
    rows: &[RowNumber],
    stated: u64,
    a: u64,
    b: u64,
    index: u32,
    out: &mut [u64; 1],
) -> u32
    ensures { Returns (rows_counted (repainted rows.now stated a b index)) one_number out.old out.new result }
{
    let count = table_repaint::preview_repaint(
        rows,
        stated as usize,
        a,
        b,
        DescriptionIndex(index),
    );
    put_number(count.map(|n| n as u64), out)
}

// The samples from a up to but not b get the index; the new rows stand in front of the run. out: how many they are.
pub fn film_repaint(
    rows: &mut [RowNumber],
    stated: u64,
    a: u64,
    b: u64,
    index: u32,
    out: &mut [u64; 1],
) -> u32
    ensures { Repaints (repainted rows.old stated a b index) rows.old rows.new out.old out.new result }
{
    let count = table_repaint::repaint(rows, stated as usize, a, b, DescriptionIndex(index));
    put_number(count.map(|n| n as u64), out)
}
