// The replay of a payload's samples, to find its refusal and how many rows it makes.
ghost use Rattle.std.specs.Prelude.{◌≡◌, length};
ghost use Rattle.base_fields.specs.Answer.{given, and_then};
ghost use Rattle.base_fields.specs.Refusal.{told_value};
ghost use Rattle.table_csgp_head.specs.Head.{CsgpLaid};
ghost use Rattle.table_csgp.specs.Rows.{rows_for};

use base_fields::refusal::Refusal;
use table_csgp_head::{CsgpHead, first_pattern, pattern_at, patterns_behind};
use table_patterns::run::run_at;
use table_replay::enter::Tail;
use table_replay::singly::enter_singly;
use table_replay::step::{pattern_start, replay_step};

// How many rows the samples fill, or the refusal of the first sample that cannot be entered.
pub fn measure(s: &[u8], head: CsgpHead, room: usize) -> Result<usize, Refusal>
    requires { CsgpLaid s.now head }
    ensures { told_value result ≡ and_then (rows_for s.now room) (λ rows. given (length rows)) }
{
    let mut told = Ok(());
    let mut tail = Tail {
        rows: 0,
        count: 0,
        index: 0,
    };
    let mut here = first_pattern(head);
    'replay: while 0 < here.left {
        let pattern = pattern_at(s, head, here);
        let mut state = pattern_start(tail);
        while state.sample < pattern.count {
            let run = run_at(s, pattern, state.sample);
            match replay_step(pattern, state, run, room) {
                Ok((next, _stood)) => state = enter_singly(s, pattern, next, room),
                Err(refusal) => {
                    told = Err(refusal);
                    break 'replay;
                }
            }
        }
        tail = state.tail;
        here = patterns_behind(head, here, pattern.length);
    }
    told?;
    Ok(tail.rows)
}
