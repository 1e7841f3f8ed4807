// A stretch of samples repainted in a lent run of rows (document 02, A10): a preview, and an edit in place.
#![tactic(auto)]

mod count;
mod pieces;
mod write;

ghost use Rattle.std.specs.Prelude.{◌≡◌};
ghost use Rattle.base_fields.specs.Refusal.{told_value};
ghost use Rattle.table_repaint.specs.Repaint.{repainted, rows_counted};
ghost use Rattle.table_repaint.specs.Repainted.{GivesRepaint};

use base_fields::refusal::Refusal;
use base_ids::{DescriptionIndex, RECORD_LIMIT, RECORD_NUMBERS, RowNumber};
use count::count_repainted;
use table_rows::covered_samples;
use table_rows::record::record_count;
use write::write_repainted;

// What an edit would answer: the first `stated` records are rows, of which the samples from a up to but not b get an index.
pub fn preview_repaint(
    rows: &[RowNumber],
    stated: usize,
    a: u64,
    b: u64,
    index: DescriptionIndex,
) -> Result<usize, Refusal>
    ensures { told_value result ≡ rows_counted (repainted rows.now stated a b index.0) }
{
    let records = record_count(rows);
    if RECORD_LIMIT < records {
        return Err(Refusal::InputTooLong);
    }
    if records < stated {
        return Err(Refusal::NoStretch);
    }
    let end = RECORD_NUMBERS * stated;
    let total = covered_samples(&rows[..end])?;
    if b <= a {
        return Err(Refusal::NoStretch);
    }
    if total < b {
        return Err(Refusal::NoStretch);
    }
    let paint = index.0;
    count_repainted(rows, stated, a, b, paint)
}

// The edit: the new rows stand in front of the run, every record behind them stays. On refusal all of it stays.
pub fn repaint(
    rows: &mut [RowNumber],
    stated: usize,
    a: u64,
    b: u64,
    index: DescriptionIndex,
) -> Result<usize, Refusal>
    ensures { GivesRepaint (repainted rows.old stated a b index.0) rows.old rows.new result }
{
    let count = preview_repaint(rows, stated, a, b, index)?;
    write_repainted(rows, stated, a, b, index.0);
    Ok(count)
}
