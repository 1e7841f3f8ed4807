// How long the cue listing of a table is (document 01, part 8): found before a byte is stored, or that it passes a limit.
#![tactic(auto)]

ghost use Rattle.std.specs.Prelude.{◌≡◌, ◌+◌, ◌≤◌};
ghost use Rattle.group_sgpd.specs.Head.{ReadWhole};
ghost use Rattle.group_sgpd.specs.declared.SgpdHead.{SgpdHead};
ghost use Rattle.group_sgpd.specs.Marks.{Marks};
ghost use Rattle.table_rows.specs.Pattern.{covered_by};
ghost use Rattle.table_patterns.specs.Place.{pattern_in, Stands};
ghost use Rattle.table_runs.specs.Ahead.{all_in, ahead_in, WholeIn};
ghost use Rattle.table_runs.specs.Patterns.{covered_limit};
ghost use Rattle.listing_stretches.specs.Entered.{output_limit, InHand, Recalls};
ghost use Rattle.listing_measure.specs.Measured.{PatternMeans, AllMean, GivesMeasuring, GivesEnd, GivesLength};

use base_ids::{DescriptionIndex, PatternCount};
use group_sgpd::SgpdHead;
use listing_stretches::{Mark, Progress, begin_listing, close_stretch, enter_run, pass_periods};
use table_patterns::PatternAt;
use table_patterns::run::run_at;
use table_runs::{SampleTable, first_pattern, next_pattern};

// The samples of a pattern, run by run, with whole periods passed in one step; none where the output would pass the limit.
fn measure_pattern(
    grouping_type: u32,
    table_s: &[u8],
    pattern: PatternAt,
    s: &[u8],
    head: SgpdHead,
    marks: &[u32; 16],
    memory: &mut [u32; 16],
    out: &mut [u8],
    progress: Progress,
    limit: usize,
) -> Option<Progress>
    requires stands { (Stands table_s.now pattern) × (ReadWhole s.now head) × (Marks s.now marks.now) }
    requires pattern_means { (PatternMeans grouping_type s.now (pattern_in table_s.now pattern)) × (InHand grouping_type s.now progress) × (Recalls grouping_type s.now progress memory.old) }
    requires at_le_limit { (progress.hand.at ≤ limit) × (limit ≤ output_limit) × (progress.hand.samples + pattern.count ≤ covered_limit) }
    ensures { GivesMeasuring grouping_type s.now (pattern_in table_s.now pattern) progress limit memory.new result }
{
    let count = pattern.count;
    let mut here = progress;
    let mut k: PatternCount = 0;
    let first = progress.hand;
    let mut mark = Mark {
        sample: 0,
        hand: first,
    };
    while k < count {
        let run = run_at(table_s, pattern, k);
        let index = DescriptionIndex(run.index);
        let entered = enter_run(
            grouping_type,
            s,
            head,
            marks,
            memory,
            out,
            here,
            run.count,
            index,
        );
        let hand = entered.hand;
        if limit < hand.at {
            return None;
        }
        let (next, sample, to) = pass_periods(
            mark,
            hand,
            k + run.count,
            pattern.length,
            count,
            limit,
        )?;
        let meaning = entered.meaning;
        let kept = entered.kept;
        here = Progress {
            hand: next,
            meaning,
            kept,
        };
        k = sample;
        mark = to;
    }
    Some(here)
}

// The end behind the last sample; none where it is past the limit.
fn measure_end(
    grouping_type: u32,
    s: &[u8],
    out: &mut [u8],
    progress: Progress,
    limit: usize,
) -> Option<usize>
    requires { ((h : SgpdHead) × ReadWhole s.now h) × (InHand grouping_type s.now progress) × (progress.hand.at ≤ output_limit) }
    ensures { GivesEnd grouping_type s.now progress limit result }
{
    let end = close_stretch(grouping_type, s, out, progress);
    if limit < end {
        return None;
    }
    Some(end)
}

// The length of the listing of a table that covers `covered` samples, all of which have a meaning. What is lent as `out` is not looked at: an
// empty part of the output will do. None where it is over the limit.
pub fn measure_listing(
    grouping_type: u32,
    table_s: &[u8],
    table: SampleTable,
    s: &[u8],
    head: SgpdHead,
    marks: &[u32; 16],
    covered: u64,
    out: &mut [u8],
    limit: usize,
) -> Option<usize>
    requires whole_in { (WholeIn table_s.now table (all_in table)) × (ReadWhole s.now head) × (Marks s.now marks.now) }
    requires all_mean { (AllMean grouping_type s.now (ahead_in table_s.now table (all_in table))) × (covered ≡ covered_by (ahead_in table_s.now table (all_in table))) }
    requires covered_le_covered_limit { (covered ≤ covered_limit) × (limit ≤ output_limit) }
    ensures { GivesLength grouping_type s.now (ahead_in table_s.now table (all_in table)) limit result }
{
    let mut memory: [u32; 16] = [0; 16];
    let mut progress = begin_listing(grouping_type, covered, out);
    if limit < progress.hand.at {
        return None;
    }
    let mut here = first_pattern(table);
    loop {
        match next_pattern(table_s, table, here) {
            Some((pattern, behind)) => {
                progress = measure_pattern(
                    grouping_type,
                    table_s,
                    pattern,
                    s,
                    head,
                    marks,
                    &mut memory,
                    out,
                    progress,
                    limit,
                )?;
                here = behind;
            }
            None => return measure_end(grouping_type, s, out, progress, limit),
        }
    }
}
