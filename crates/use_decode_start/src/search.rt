// The search along a table's patterns, cut behind the wanted frame. No sample behind it is looked at, and no work is done for each sample.
ghost use Rattle.std.specs.Prelude.{◌≡◌, ◌<◌, ◌≤◌};
ghost use Rattle.group_sgpd.specs.Head.{ReadWhole};
ghost use Rattle.group_sgpd.specs.Marks.{Marks};
ghost use Rattle.table_patterns.specs.Place.{pattern_in, Stands};
ghost use Rattle.table_views.specs.Used.{up_to_frame};
ghost use Rattle.table_runs.specs.Ahead.{all_in, ahead_in, WholeIn};
ghost use Rattle.use_decode_start.specs.Inner.{told_latest, told_search, frame_limit, cut_place, searched_pattern, searched_in};

use super::distances::index_distance;
use super::positions::best_at;
use base_fields::refusal::Refusal;
use base_ids::PatternCount;
use group_sgpd::SgpdHead;
use table_patterns::{PatternAt, index_at};
use table_runs::{SampleTable, first_pattern, next_pattern};

// A pattern's first samples.
fn cut_pattern(pattern: PatternAt, left: u64) -> PatternAt
    ensures { result ≡ cut_place left pattern }
{
    PatternAt {
        length: pattern.length,
        count: left.min(pattern.count as u64) as PatternCount,
        width: pattern.width,
        indices: pattern.indices,
        marks: pattern.marks,
    }
}

// The positions of a pattern that starts at sample `start`, in order. A position that no sample uses is asked like the others, so that the work is that of the table's
// indices, whatever its counts are; it has no last sample, and what its decoder refuses does not matter.
fn search_pattern(
    table_s: &[u8],
    pattern: PatternAt,
    s: &[u8],
    head: SgpdHead,
    marks: &[u32; 16],
    grouping_type: u32,
    wanted: u64,
    start: u64,
    before: u64,
) -> Result<u64, Refusal>
    requires { (Stands table_s.now pattern) × (ReadWhole s.now head) × (Marks s.now marks.now) × (wanted < frame_limit) × (start ≤ frame_limit) }
    ensures { told_search result ≡ searched_pattern grouping_type s.now wanted start (told_latest before) (pattern_in table_s.now pattern) }
{
    let count = pattern.count;
    let length = pattern.length;
    let mut latest = before;
    for i in 0..length {
        let index = index_at(table_s, pattern, i);
        let d = match index_distance(s, head, marks, grouping_type, index) {
            Ok(d) => d,
            Err(refusal) => {
                if i < count {
                    return Err(refusal);
                }
                continue;
            }
        };
        latest = latest.max(best_at(wanted, start, count, length, i, d));
    }
    Ok(latest)
}

// The greatest begin of the members that are clean at or before the wanted frame; or the first refusal of an entry that a sample up to
// there uses.
pub fn search_table(
    table_s: &[u8],
    table: SampleTable,
    s: &[u8],
    head: SgpdHead,
    marks: &[u32; 16],
    grouping_type: u32,
    wanted: u64,
) -> Result<u64, Refusal>
    requires { (WholeIn table_s.now table (all_in table)) × (ReadWhole s.now head) × (Marks s.now marks.now) × (wanted < frame_limit) }
    ensures { told_search result ≡ searched_in grouping_type s.now wanted (up_to_frame wanted (ahead_in table_s.now table (all_in table))) }
{
    let mut here = first_pattern(table);
    let mut left = wanted + 1;
    let mut start: u64 = 0;
    let mut latest: u64 = 0;
    while 0 < left {
        match next_pattern(table_s, table, here) {
            Some((pattern, behind)) => {
                let piece = cut_pattern(pattern, left);
                let best = search_pattern(
                    table_s,
                    piece,
                    s,
                    head,
                    marks,
                    grouping_type,
                    wanted,
                    start,
                    latest,
                )?;
                here = behind;
                left -= piece.count as u64;
                start += piece.count as u64;
                latest = best;
            }
            None => return Ok(latest),
        }
    }
    Ok(latest)
}
