// The patterns of a table, one after the other.
ghost use Rattle.std.specs.Prelude.{◌≡◌, ◌+◌, ◌≤◌, length};
ghost use Rattle.table_rows.specs.Pattern.{covered_by};
ghost use Rattle.base_fields.specs.Answer.{input_limit};
ghost use Rattle.table_runs.specs.Ahead.{all_in, ahead_in, row_place, WholeIn, GivesPattern};
ghost use Rattle.table_runs.specs.Patterns.{covered_limit};

use super::SampleTable;
use base_fields::read_u32;
use table_csgp_head::{PatternsAt, pattern_at, patterns_behind};
use table_patterns::PatternAt;

// All patterns of a table.
pub fn first_pattern(table: SampleTable) -> PatternsAt
    ensures { result ≡ all_in table }
{
    match table {
        SampleTable::Rows(head) => PatternsAt {
            left: head.entry_count,
            pair: head.first,
            indices: 0,
        },
        SampleTable::Patterns(head) => table_csgp_head::first_pattern(head),
    }
}

// The row at a place.
fn row_at(s: &[u8], at: usize) -> PatternAt
    requires { (at + 8 ≤ length s.now) × (length s.now ≤ input_limit) }
    ensures { result ≡ row_place s.now at }
{
    PatternAt {
        length: 1,
        count: read_u32(s, at),
        width: 32,
        indices: 8 * (at + 4),
        marks: false,
    }
}

// The first of the patterns ahead, and those behind it.
pub fn next_pattern(
    s: &[u8],
    table: SampleTable,
    here: PatternsAt,
) -> Option<(PatternAt, PatternsAt)>
    requires { WholeIn s.now table here }
    ensures { GivesPattern s.now table here result }
{
    let left = here.left;
    if left == 0 {
        return None;
    }
    match table {
        SampleTable::Rows(_) => {
            let at = here.pair;
            let behind = PatternsAt {
                left: left - 1,
                pair: at + 8,
                indices: here.indices,
            };
            Some((row_at(s, at), behind))
        }
        SampleTable::Patterns(head) => {
            let pattern = pattern_at(s, head, here);
            Some((pattern, patterns_behind(head, here, pattern.length)))
        }
    }
}

// How many samples a table covers.
pub fn count_samples(s: &[u8], table: SampleTable) -> u64
    requires { WholeIn s.now table (all_in table) }
    ensures { (result ≡ covered_by (ahead_in s.now table (all_in table))) × (result ≤ covered_limit) }
{
    let mut here = first_pattern(table);
    let mut sum: u64 = 0;
    while let Some((pattern, behind)) = next_pattern(s, table, here) {
        sum += pattern.count as u64;
        here = behind;
    }
    sum
}
