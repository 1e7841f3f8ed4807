// The records of a lent run of numbers that rows are written to.
ghost use Rattle.std.specs.Prelude.{◌≡◌, ◌-◌, ◌*◌, ◌≤◌, ◌<◌, length};
ghost use Rattle.table_rows.specs.Row.{record_numbers};
ghost use Rattle.table_replay.specs.Records.{copied};

use base_ids::RowNumber;
use table_rows::record::{count_at, description_at, put_row};

// Copies rows, counted from 1: row `from` to row `to`, and so on up to row `end` - 1.
pub fn copy_rows(rows: &mut [RowNumber], from: usize, to: usize, end: usize)
    requires { (record_numbers * end ≤ length rows.old) × (to < end → (0 < from) × (from ≤ to)) }
    ensures { rows.new ≡ copied (end - to) (from - 1) (to - 1) rows.old }
{
    for j in to..end {
        let at = from + (j - to) - 1;
        let count = count_at(rows, at);
        let index = description_at(rows, at);
        put_row(rows, j - 1, count, index);
    }
}
