// One step of the replay within a pattern, for every loop over its samples.
ghost use Rattle.std.specs.Prelude.{◌≡◌, List};
ghost use Rattle.table_rows.specs.Row.{Row};
ghost use Rattle.table_rows.specs.Pattern.{Pattern};
ghost use Rattle.table_replay.specs.Step.{start_of, StateOf, NextRun, GivesStep};

use crate::enter::{Tail, enter_run};
use crate::periods::{Mark, pass_periods};
use base_fields::refusal::Refusal;
use base_ids::PatternCount;
use table_patterns::PatternAt;
use table_patterns::run::Run;

// The replay within a pattern: the rows so far, the samples passed, and the mark.
#[derive(Clone, Copy)]
pub struct ReplayState {
    pub tail: Tail,
    pub sample: PatternCount,
    pub mark: Mark,
}

// Before a pattern's first sample.
pub fn pattern_start(tail: Tail) -> ReplayState
    ensures { result ≡ start_of tail }
{
    ReplayState {
        tail,
        sample: 0,
        mark: Mark { sample: 0, tail },
    }
}

// Enters the next run of a pattern's samples, and passes the periods behind it that repeat the one since the mark. Told with the new state: how
// many rows stood before those periods.
pub fn replay_step(
    pattern: PatternAt,
    state: ReplayState,
    run: Run,
    room: usize,
) -> Result<(ReplayState, usize), Refusal>
    requires { (p : Pattern) × NextRun p pattern state run × ((rows : List Row) × StateOf p room rows state) }
    ensures { (p : Pattern) → NextRun p pattern state run → GivesStep p room state result }
{
    let tail = enter_run(state.tail, room, run.count, run.index)?;
    let k = state.sample + run.count;
    let (next, sample, mark) = pass_periods(
        state.mark,
        tail,
        k,
        pattern.length,
        pattern.count,
        room,
    ).ok_or(Refusal::NoRecordLeft)?;
    Ok((
        ReplayState {
            tail: next,
            sample,
            mark,
        },
        tail.rows,
    ))
}
