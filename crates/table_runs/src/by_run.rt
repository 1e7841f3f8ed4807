// The samples of a table by runs of one index: patterns and rows that cover no samples are passed over.
ghost use Rattle.std.specs.Prelude.{◌≡◌};
ghost use Rattle.table_runs.specs.Ahead.{WholeIn};
ghost use Rattle.table_runs.specs.Runs.{first_run, GivesNext};

use super::{RunCursor, SampleTable, first_pattern, next_pattern};
use base_ids::{DescriptionIndex, PatternCount};
use table_patterns::run::run_at;

// All samples of a table.
pub fn first_run(table: SampleTable) -> RunCursor
    ensures { result ≡ first_run table }
{
    RunCursor {
        here: first_pattern(table),
        sample: 0,
    }
}

// The next samples of one index: how many, the index, and the cursor behind them.
pub fn next_run(
    s: &[u8],
    table: SampleTable,
    cursor: RunCursor,
) -> Option<(PatternCount, DescriptionIndex, RunCursor)>
    requires { WholeIn s.now table cursor.here }
    ensures { GivesNext s.now table cursor result }
{
    let mut here = cursor.here;
    let mut k = cursor.sample;
    while let Some((pattern, behind)) = next_pattern(s, table, here) {
        if k < pattern.count {
            let run = run_at(s, pattern, k);
            let behind = RunCursor {
                here,
                sample: k + run.count,
            };
            return Some((run.count, DescriptionIndex(run.index), behind));
        }
        here = behind;
        k = 0;
    }
    None
}
