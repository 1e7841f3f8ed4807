// A walk over rows in a lent run of numbers.
ghost use Rattle.std.specs.Prelude.{◌≡◌, drop};
ghost use Rattle.table_rows.specs.Row.{rows_of};
ghost use Rattle.table_play_head.specs.Head.{first_index};
ghost use Rattle.table_play_head.specs.Turn.{GivesWalk};

use base_ids::RowNumber;
use table_rows::record::{count_at, description_at, record_count};

// Where a walk over rows ends, and how many samples are left there past the last row.
#[derive(Clone, Copy)]
pub struct Walked {
    pub row: usize,
    pub within: u64,
    pub past: u64,
}

// A walk of so many samples over the rows from a row on.
pub fn walk_from(rows: &[RowNumber], from: usize, samples: u64) -> Walked
    ensures { GivesWalk (drop from (rows_of rows.now)) from samples result }
{
    let records = record_count(rows);
    let mut row = from;
    let mut left = samples;
    // A walk may begin past the last row and tells where it ends, so the row is no counter of a `for`.
    while row < records {
        let count = count_at(rows, row) as u64;
        if left < count {
            return Walked {
                row,
                within: left,
                past: 0,
            };
        }
        left -= count;
        row += 1;
    }
    Walked {
        row,
        within: 0,
        past: left,
    }
}

// The index of a row; 0 past the last.
pub fn index_of(rows: &[RowNumber], row: usize) -> u32
    ensures { result ≡ first_index (drop row (rows_of rows.now)) }
{
    if row < record_count(rows) {
        return description_at(rows, row);
    }
    0
}
