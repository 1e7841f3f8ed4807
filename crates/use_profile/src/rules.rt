// Rules 2 to 5, by what is seen of all samples.
ghost use Rattle.std.specs.Prelude.{◌≡◌};
ghost use Rattle.use_profile.specs.Told.{verdict_told};
ghost use Rattle.use_profile.specs.Survey.{starts_by_number, short_by, first_broken, verdict_by, told_gaps, told_seen};

use super::{Gaps, Rule, Seen};

// The most samples in a row that may be of kinds 0 and 1.
const LONGEST_GAP: u64 = 600;

// Rule 2: there is a sample 0, and it is not of kinds 0 and 1.
fn starts_inside(covered: u64, gaps: Gaps) -> bool
    ensures { result ≡ starts_by_number covered (told_gaps gaps) }
{
    if covered == 0 {
        return false;
    }
    gaps.front == 0
}

// Rule 3.
fn short_gaps(gaps: Gaps) -> bool
    ensures { result ≡ short_by (told_gaps gaps) }
{
    gaps.longest <= LONGEST_GAP
}

// The first of rules 2 to 5 that does not hold.
fn first_broken(starts: bool, short: bool, known: bool, found: bool) -> Option<Rule>
    ensures { verdict_told result ≡ first_broken starts short known found }
{
    if !starts {
        return Some(Rule::StartsInside);
    }
    if !short {
        return Some(Rule::ShortGaps);
    }
    if !known {
        return Some(Rule::LeadingKnown);
    }
    if !found {
        return Some(Rule::NoneMissing);
    }
    None
}

// The verdict on a table that covers so many samples, once rule 1 holds.
pub fn judge(covered: u64, seen: Seen) -> Option<Rule>
    ensures { verdict_told result ≡ verdict_by covered (told_seen seen) }
{
    first_broken(
        starts_inside(covered, seen.gaps),
        short_gaps(seen.gaps),
        seen.known,
        seen.found,
    )
}
