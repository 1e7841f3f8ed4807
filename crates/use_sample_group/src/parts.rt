// The index of a sample, the entry that an index leads to in an sgpd's payload, and its place in what the payload stands in.
ghost use Rattle.std.specs.Prelude.{◌≡◌};
ghost use Rattle.base_fields.specs.Answer.{given, and_then};
ghost use Rattle.group_sgpd.specs.Sgpd.{sgpd};
ghost use Rattle.table_patterns.specs.Place.{pattern_in, Stands};
ghost use Rattle.table_rows.specs.Pattern.{index_in, index_of};
ghost use Rattle.table_runs.specs.Ahead.{all_in, ahead_in, WholeIn};
ghost use Rattle.use_sample_group.specs.SampleGroup.{group_from, group_of};
ghost use Rattle.use_sample_group.specs.Told.{told_group, grouped, StandsBehind};

use super::SampleGroup;
use base_fields::Part;
use base_fields::refusal::Refusal;
use base_ids::{DescriptionIndex, PatternCount};
use group_sgpd::entry_place;
use table_patterns::{PatternAt, index_at};
use table_runs::{SampleTable, first_pattern, next_pattern};

// The index that a pattern gives its sample k: its indices come again and again.
fn turn_index(s: &[u8], pattern: PatternAt, k: PatternCount) -> DescriptionIndex
    requires { Stands s.now pattern }
    ensures { result.0 ≡ index_in (pattern_in s.now pattern) k }
{
    let length = pattern.length;
    index_at(s, pattern, k % length)
}

// The index of a sample of a table; 0 behind the last one. Each pattern is passed once, whatever its count is.
pub fn index_of(s: &[u8], table: SampleTable, sample: u64) -> DescriptionIndex
    requires { WholeIn s.now table (all_in table) }
    ensures { result.0 ≡ index_of (ahead_in s.now table (all_in table)) sample }
{
    let mut here = first_pattern(table);
    let mut k = sample;
    loop {
        match next_pattern(s, table, here) {
            Some((pattern, behind)) => {
                let count = pattern.count as u64;
                if k < count {
                    return turn_index(s, pattern, k as PatternCount);
                }
                k = k - count;
                here = behind;
            }
            None => return DescriptionIndex(0),
        }
    }
}

// Where an index leads, by the entries of an sgpd's payload.
pub fn entry_of(s: &[u8], index: DescriptionIndex) -> Result<SampleGroup, Refusal>
    ensures { told_group result ≡ and_then (sgpd s.now) (λ entries. given (group_of entries index.0)) }
{
    match entry_place(s, index)? {
        Some(part) => Ok(SampleGroup::Entry(index, part)),
        None => {
            if index.0 == 0 {
                return Ok(SampleGroup::Outside);
            }
            Ok(SampleGroup::Missing(index))
        }
    }
}

// The same where the bytes stand at a place of others.
pub fn group_from(place: usize, group: SampleGroup) -> SampleGroup
    requires { StandsBehind place group }
    ensures { grouped result ≡ group_from place (grouped group) }
{
    match group {
        SampleGroup::Outside => SampleGroup::Outside,
        SampleGroup::Missing(index) => SampleGroup::Missing(index),
        SampleGroup::Entry(index, part) => {
            let moved = Part {
                place: place + part.place,
                size: part.size,
            };
            SampleGroup::Entry(index, moved)
        }
    }
}
