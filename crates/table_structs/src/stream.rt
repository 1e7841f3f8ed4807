// The rows of a table one after the other, straight from the payload: those of an sbgp as they stand, those of a csgp joined from its runs.
ghost use Rattle.std.specs.Prelude.{◌+◌, ◌*◌, ◌<◌, ◌≤◌, length};
ghost use Rattle.base_fields.specs.Answer.{input_limit};
ghost use Rattle.table_runs.specs.Ahead.{all_in, WholeIn};
ghost use Rattle.table_structs.specs.Stream.{samples_held, samples_joined, CountsFit, rows_ahead, Ready, Joins, HoldsRun, GivesFirst, GivesPlain, GivesJoined, GivesRow};

use base_fields::read_u32;
use base_ids::SampleCount;
use table_csgp_head::PatternsAt;
use table_row_structs::SampleToGroupEntry;
use table_runs::{RunCursor, SampleTable, first_run, next_run};

// Of a csgp, the run in hand, which is part of the next row, and the runs behind it. Of an sbgp, the rows.
#[derive(Clone, Copy)]
pub struct RowCursor {
    pub run: RunCursor,
    pub count: SampleCount,
    pub index: u32,
}

// A row, and those behind it.
#[derive(Clone, Copy)]
pub struct NextRow {
    pub row: SampleToGroupEntry,
    pub rest: RowCursor,
}

// The next run is taken in hand, where one is left.
fn hold_run(s: &[u8], table: SampleTable, at: RunCursor) -> RowCursor
    requires { WholeIn s.now table at.here }
    ensures { HoldsRun s.now table at result }
{
    match next_run(s, table, at) {
        Some((count, index, behind)) => RowCursor {
            run: behind,
            count,
            index: index.0,
        },
        None => RowCursor {
            run: at,
            count: 0,
            index: 0,
        },
    }
}

// All rows of a table.
pub(crate) fn first_row(s: &[u8], table: SampleTable) -> RowCursor
    requires { WholeIn s.now table (all_in table) }
    ensures { GivesFirst s.now table result }
{
    let at = first_run(table);
    match table {
        SampleTable::Rows(_) => RowCursor {
            run: at,
            count: 0,
            index: 0,
        },
        SampleTable::Patterns(_) => hold_run(s, table, at),
    }
}

// The row at a place of an sbgp.
fn plain_row(s: &[u8], here: PatternsAt) -> NextRow
    requires { (here.pair + 8 * here.left ≤ length s.now) × (length s.now ≤ input_limit) × (0 < here.left) }
    ensures { GivesPlain s.now here result }
{
    let at = here.pair;
    NextRow {
        row: SampleToGroupEntry {
            sample_count: read_u32(s, at),
            group_description_index: read_u32(s, at + 4),
        },
        rest: RowCursor {
            run: RunCursor {
                here: PatternsAt {
                    left: here.left - 1,
                    pair: at + 8,
                    indices: here.indices,
                },
                sample: 0,
            },
            count: 0,
            index: 0,
        },
    }
}

// The runs of the index in hand, joined, and the run behind them in hand.
fn joined_row(s: &[u8], table: SampleTable, cursor: RowCursor) -> NextRow
    requires { Ready s.now table cursor × CountsFit (samples_joined (samples_held s.now table cursor)) × (0 < cursor.count) }
    ensures { GivesJoined s.now table cursor result }
{
    let index = cursor.index;
    let mut count = cursor.count;
    let mut next = hold_run(s, table, cursor.run);
    while 0 < next.count {
        if next.index != index {
            break;
        }
        count = count + next.count;
        next = hold_run(s, table, next.run);
    }
    NextRow {
        row: SampleToGroupEntry {
            sample_count: count,
            group_description_index: index,
        },
        rest: next,
    }
}

// The next row of a table.
pub(crate) fn next_row(s: &[u8], table: SampleTable, cursor: RowCursor) -> NextRow
    requires { Joins s.now table cursor × (0 < length (rows_ahead s.now table cursor)) }
    ensures { GivesRow s.now table cursor result }
{
    match table {
        SampleTable::Rows(_) => {
            let run = cursor.run;
            plain_row(s, run.here)
        }
        SampleTable::Patterns(_) => joined_row(s, table, cursor),
    }
}
