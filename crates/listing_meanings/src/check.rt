// The decoders' refusals, for the entries that samples use (document 01, part 8).
ghost use Rattle.std.specs.Prelude.{◌≡◌, List, ℕ, ◌≤◌, length};
ghost use Rattle.base_fields.specs.Answer.{given, and_then, input_limit};
ghost use Rattle.base_fields.specs.Refusal.{told_value};
ghost use Rattle.group_sgpd.specs.Head.{ReadWhole};
ghost use Rattle.group_sgpd.specs.Marks.{Marks};
ghost use Rattle.table_patterns.specs.Place.{pattern_in, Stands};
ghost use Rattle.table_views.specs.Used.{used_in, first_refusal};
ghost use Rattle.table_runs.specs.Ahead.{all_in, ahead_in, WholeIn};
ghost use Rattle.listing_theorem.specs.Samples.{meaning_of};
ghost use Rattle.listing_spec.specs.Table.{entries_of};
ghost use Rattle.listing_meanings.specs.Meant.{meant_at, InsideAt, meaning_in, HasMeaning, GivesChecked};

use super::{MeaningAt, meaning_at};
use base_fields::bytes_at;
use base_fields::refusal::Refusal;
use base_ids::DescriptionIndex;
use group_alike::front_of;
use group_sgpd::SgpdHead;
use table_patterns::{PatternAt, index_at, used_positions};
use table_runs::{SampleTable, first_pattern, next_pattern};

// Whether a meaning decodes.
fn check_meaning(grouping_type: u32, s: &[u8], meaning: MeaningAt) -> Result<(), Refusal>
    requires { (length s.now ≤ input_limit) × (InsideAt s.now meaning) }
    ensures { told_value result ≡ and_then (meant_at grouping_type s.now meaning) (λ v. given tt) }
{
    match meaning {
        MeaningAt::Outside => Ok(()),
        MeaningAt::Missing => Ok(()),
        MeaningAt::Entry(part) => {
            let layout = group_entries::layout_of(grouping_type);
            front_of(layout, bytes_at(s, part.place, part.size))?;
            Ok(())
        }
    }
}

// Whether an index's meaning decodes. The last index that passed is not looked at again.
fn check_index(
    s: &[u8],
    head: SgpdHead,
    marks: &[u32; 16],
    grouping_type: u32,
    last: DescriptionIndex,
    index: DescriptionIndex,
) -> Result<(), Refusal>
    requires { (ReadWhole s.now head) × (Marks s.now marks.now) × (HasMeaning grouping_type s.now last.0) }
    ensures { told_value result ≡ and_then (meaning_in grouping_type s.now index.0) (λ v. given tt) }
{
    if index.0 == last.0 {
        return Ok(());
    }
    check_meaning(grouping_type, s, meaning_at(s, head, marks, index))
}

// The used positions of a pattern in order.
fn check_pattern(
    table_s: &[u8],
    pattern: PatternAt,
    s: &[u8],
    head: SgpdHead,
    marks: &[u32; 16],
    grouping_type: u32,
    before: DescriptionIndex,
) -> Result<DescriptionIndex, Refusal>
    requires { (Stands table_s.now pattern) × (ReadWhole s.now head) × (Marks s.now marks.now) × (HasMeaning grouping_type s.now before.0) }
    ensures { GivesChecked grouping_type s.now (pattern_in table_s.now pattern) result }
{
    let used = used_positions(pattern);
    let mut last = before;
    for i in 0..used {
        let index = index_at(table_s, pattern, i);
        check_index(s, head, marks, grouping_type, last, index)?;
        last = index;
    }
    Ok(last)
}

// The decoders' refusals, for each entry that a sample uses, in sample order: asked of the used positions of each pattern.
pub fn check_used(
    table_s: &[u8],
    table: SampleTable,
    s: &[u8],
    head: SgpdHead,
    marks: &[u32; 16],
    grouping_type: u32,
) -> Result<(), Refusal>
    requires { (WholeIn table_s.now table (all_in table)) × (ReadWhole s.now head) × (Marks s.now marks.now) }
    ensures { (entries : List (List ℕ)) → entries_of s.now ≡ given entries
        → told_value result ≡ first_refusal (meaning_of grouping_type entries) (used_in (ahead_in table_s.now table (all_in table))) }
{
    let mut here = first_pattern(table);
    let mut last = DescriptionIndex(0);
    loop {
        match next_pattern(table_s, table, here) {
            Some((pattern, behind)) => {
                last = check_pattern(table_s, pattern, s, head, marks, grouping_type, last)?;
                here = behind;
            }
            None => return Ok(()),
        }
    }
}
