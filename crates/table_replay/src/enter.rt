// A run of samples of one index, entered into the rows.
ghost use Rattle.std.specs.Prelude.{◌≡◌};
ghost use Rattle.base_fields.specs.Refusal.{told_value};
ghost use Rattle.table_replay.specs.Enter.{enter_run};

use base_fields::refusal::Refusal;
use base_ids::{COUNT_LIMIT, SampleCount};

// The rows so far: their number, and the last one's count and index.
#[derive(Clone, Copy)]
pub struct Tail {
    pub rows: usize,
    pub count: SampleCount,
    pub index: u32,
}

// `count` samples of one index join the last row, where it has that index, or begin a new one: 28 where the last row's count would pass its
// limit, 29 where a new row has no record left.
pub fn enter_run(tail: Tail, room: usize, count: SampleCount, index: u32) -> Result<Tail, Refusal>
    ensures { told_value result ≡ enter_run room tail count index }
{
    if 0 < tail.rows {
        if tail.index == index {
            if COUNT_LIMIT - tail.count < count {
                return Err(Refusal::RowCountOver);
            }
            return Ok(Tail {
                rows: tail.rows,
                count: tail.count + count,
                index,
            });
        }
    }
    if room <= tail.rows {
        return Err(Refusal::NoRecordLeft);
    }
    Ok(Tail {
        rows: tail.rows + 1,
        count,
        index,
    })
}
