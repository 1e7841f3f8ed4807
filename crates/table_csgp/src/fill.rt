// The rows of a payload's samples, written in front of a run of numbers.
ghost use Rattle.std.specs.Prelude.{◌≡◌, List, reverse};
ghost use Rattle.base_fields.specs.Answer.{given};
ghost use Rattle.table_rows.specs.Row.{Row, records_in, filled};
ghost use Rattle.table_csgp_head.specs.Head.{CsgpLaid};
ghost use Rattle.table_csgp.specs.Rows.{rows_for};

use base_ids::{RECORD_NUMBERS, RowNumber};
use table_csgp_head::{CsgpHead, first_pattern, pattern_at, patterns_behind};
use table_patterns::run::run_at;
use table_replay::enter::Tail;
use table_replay::records::copy_rows;
use table_replay::singly::write_singly;
use table_replay::step::{pattern_start, replay_step};
use table_rows::record::put_row;

// Writes the rows from the front, where there are records enough. A run that joins the last row writes it anew; the rows of periods that
// are passed are copied.
pub fn fill(s: &[u8], head: CsgpHead, rows: &mut [RowNumber])
    requires { (CsgpLaid s.now head) × ((out : List Row) × (rows_for s.now (records_in rows.old) ≡ given out)) }
    ensures { rows.new ≡ filled reverse (rows_for s.now (records_in rows.old)) rows.old }
{
    let room = rows.len() / RECORD_NUMBERS;
    let mut tail = Tail {
        rows: 0,
        count: 0,
        index: 0,
    };
    let mut here = first_pattern(head);
    while 0 < here.left {
        let pattern = pattern_at(s, head, here);
        let mut state = pattern_start(tail);
        while state.sample < pattern.count {
            let run = run_at(s, pattern, state.sample);
            match replay_step(pattern, state, run, room) {
                Ok((next, stood)) => {
                    copy_rows(rows, state.mark.tail.rows, stood, next.tail.rows);
                    put_row(rows, next.tail.rows - 1, next.tail.count, next.tail.index);
                    state = write_singly(s, pattern, next, rows);
                }
                Err(_) => return,
            }
        }
        tail = state.tail;
        here = patterns_behind(head, here, pattern.length);
    }
}
