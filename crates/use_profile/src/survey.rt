// What rules 2 to 5 ask, along a table's patterns. No work is done for each sample.
ghost use Rattle.std.specs.Prelude.{◌≡◌, ◌≤◌, leb};
ghost use Rattle.base_fields.specs.Answer.{choose};
ghost use Rattle.group_sgpd.specs.Head.{ReadWhole};
ghost use Rattle.group_sgpd.specs.Marks.{Marks};
ghost use Rattle.table_rows.specs.Pattern.{samples_from, samples_of, covered_by};
ghost use Rattle.table_patterns.specs.Place.{pattern_in, Stands};
ghost use Rattle.table_runs.specs.Ahead.{all_in, ahead_in, WholeIn};
ghost use Rattle.use_profile.specs.Survey.{kind_in, survey, survey_step, survey_join, nothing_seen, told_seen, told_gaps, AtMost, Fit, largest};

use super::kinds::{index_kind, is_found, is_gap, is_known};
use super::stretches::{both, joined, no_gaps, one_more, repeated};
use super::{Gaps, SampleKind, Seen};
use group_sgpd::SgpdHead;
use table_patterns::{PatternAt, index_at, used_positions};
use table_runs::{SampleTable, first_pattern, next_pattern};

fn nothing_seen() -> Seen
    ensures { told_seen result ≡ nothing_seen }
{
    Seen {
        gaps: no_gaps(),
        known: true,
        found: true,
    }
}

// One sample more.
fn seen_more(kind: SampleKind, seen: Seen) -> Seen
    requires { AtMost 4294967295 seen.gaps }
    ensures { told_seen result ≡ survey_step kind (told_seen seen) }
{
    Seen {
        gaps: one_more(is_gap(kind), seen.gaps),
        known: both(seen.known, is_known(kind)),
        found: both(seen.found, is_found(kind)),
    }
}

// Some samples behind others.
fn seen_behind(a: Seen, b: Seen) -> Seen
    requires { Fit a.gaps b.gaps }
    ensures { told_seen result ≡ survey_join (told_seen a) (told_seen b) }
{
    Seen {
        gaps: joined(a.gaps, b.gaps),
        known: both(a.known, b.known),
        found: both(a.found, b.found),
    }
}

// The last turn of a pattern is cut behind `cut` positions: its stretches are those of the positions up to there.
fn up_to_cut(position: u32, cut: u32, here: Gaps, before: Gaps) -> Gaps
    ensures { told_gaps result ≡ choose (leb position cut) (told_gaps here) (told_gaps before) }
{
    if position <= cut { here } else { before }
}

// A pattern, by its used positions: those of one turn are seen, then its whole turns in a row and the cut one behind them.
fn survey_pattern(
    table_s: &[u8],
    pattern: PatternAt,
    s: &[u8],
    head: SgpdHead,
    marks: &[u32; 16],
) -> Seen
    requires { (Stands table_s.now pattern) × (ReadWhole s.now head) × (Marks s.now marks.now) }
    ensures { told_seen result ≡ survey (kind_in s.now) (samples_from (pattern_in table_s.now pattern) 0 pattern.count) }
{
    let used = used_positions(pattern);
    let cut = pattern.count % pattern.length;
    let turns = pattern.count / pattern.length;
    let mut turn = nothing_seen();
    let mut last = no_gaps();
    for i in 0..used {
        let kind = index_kind(s, head, marks, index_at(table_s, pattern, i));
        turn = seen_more(kind, turn);
        last = up_to_cut(i + 1, cut, turn.gaps, last);
    }
    Seen {
        gaps: joined(repeated(turns, turn.gaps), last),
        known: turn.known,
        found: turn.found,
    }
}

// All of a table's samples.
pub fn survey_table(
    table_s: &[u8],
    table: SampleTable,
    s: &[u8],
    head: SgpdHead,
    marks: &[u32; 16],
) -> Seen
    requires { (WholeIn table_s.now table (all_in table)) × (ReadWhole s.now head) × (Marks s.now marks.now) × (covered_by (ahead_in table_s.now table (all_in table)) ≤ largest) }
    ensures { told_seen result ≡ survey (kind_in s.now) (samples_of (ahead_in table_s.now table (all_in table))) }
{
    let mut here = first_pattern(table);
    let mut seen = nothing_seen();
    while let Some((pattern, behind)) = next_pattern(table_s, table, here) {
        seen = seen_behind(seen, survey_pattern(table_s, pattern, s, head, marks));
        here = behind;
    }
    seen
}
