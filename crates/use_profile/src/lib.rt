// The dome profile (document 02, A14): whether a film's random access points meet the rules, or the first rule that they break.
#![tactic(auto)]

mod kinds;
mod rules;
mod stretches;
mod survey;

ghost use Rattle.std.specs.Prelude.{◌≡◌};
ghost use Rattle.base_fields.specs.Answer.{given};
ghost use Rattle.group_sgpd.specs.Head.{ReadWhole};
ghost use Rattle.table_rows.specs.Pattern.{covered_by};
ghost use Rattle.table_runs.specs.Ahead.{all_in, ahead_in, WholeIn};
ghost use Rattle.use_profile.specs.Profile.{GivesVerdict};
ghost use Rattle.use_profile.specs.File.{GivesFileVerdict};
ghost use Rattle.use_profile.specs.Told.{number, verdict_told, told_verdict};
ghost use Rattle.use_profile.specs.From.{JudgesIn};

use atom_path::find_stbl;
use base_fields::refusal::Refusal;
use base_fields::{INPUT_LIMIT, bytes_at, fourcc};
use group_sgpd::{SgpdHead, entry_marks};
use listing_group::open_group;
use listing_meanings::check_used;
use rules::judge;
use survey::survey_table;
use table_runs::SampleTable;

// The rules of the profile.
#[derive(Clone, Copy, Debug, PartialEq, Eq)]
pub enum Rule {
    // The cue listing is given for long enough buffers.
    Listed = 1,
    // Sample 0 has kind 2.
    StartsInside = 2,
    // No more than 600 samples in a row are of kinds 0 and 1 together.
    ShortGaps = 3,
    // Every sample of kind 2 says that its leading samples are known.
    LeadingKnown = 4,
    // No sample has kind 1.
    NoneMissing = 5,
}

impl Rule {
    // The number of document 02.
    pub fn number(self) -> u32
        ensures { result ≡ number self }
    {
        self as u32
    }
}

// What an index means: kinds 0 and 1, and kind 2 by what it says of its leading samples.
#[derive(Clone, Copy)]
enum SampleKind {
    Outside,
    Missing,
    Known,
    Unknown,
}

// Of samples in order: whether all are of kinds 0 and 1, and how many are so in front, at the back, and in a row at most.
#[derive(Clone, Copy)]
struct Gaps {
    whole: bool,
    front: u64,
    back: u64,
    longest: u64,
}

// Beside that, whether none is of kind 2 with unknown leading samples, and whether none is of kind 1.
#[derive(Clone, Copy)]
struct Seen {
    gaps: Gaps,
    known: bool,
    found: bool,
}

// In a group whose table covers so many samples: an entry that does not decode breaks rule 1; then rules 2 to 5.
fn profile_in(
    table_s: &[u8],
    table: SampleTable,
    covered: u64,
    s: &[u8],
    head: SgpdHead,
) -> Option<Rule>
    requires { (WholeIn table_s.now table (all_in table)) × (covered ≡ covered_by (ahead_in table_s.now table (all_in table))) × (ReadWhole s.now head) }
    ensures { JudgesIn table_s.now table s.now (given (verdict_told result)) }
{
    let marks = entry_marks(s, head);
    match check_used(table_s, table, s, head, &marks, fourcc::RAP) {
        Ok(()) => judge(covered, survey_table(table_s, table, s, head, &marks)),
        Err(_) => Some(Rule::Listed),
    }
}

// Whether the stbl of this body meets the profile, or the first rule that it breaks. A group that is not opened breaks rule 1.
pub fn profile(body: &[u8]) -> Result<Option<Rule>, Refusal>
    ensures { GivesVerdict body.now (told_verdict result) }
{
    if INPUT_LIMIT < body.len() {
        return Err(Refusal::InputTooLong);
    }
    let group = match open_group(body, fourcc::RAP, None) {
        Ok(group) => group,
        Err(_) => return Ok(Some(Rule::Listed)),
    };
    let table = group.table;
    let head = group.head;
    let table_s = bytes_at(body, group.table_place, group.table_size);
    let s = bytes_at(body, group.sgpd_place, group.sgpd_size);
    Ok(profile_in(table_s, table, group.count, s, head))
}

// The same for the stbl of a track of a film, counted from 0.
pub fn file_profile(s: &[u8], track: u32) -> Result<Option<Rule>, Refusal>
    ensures { GivesFileVerdict s.now track (told_verdict result) }
{
    let body = find_stbl(s, track)?;
    profile(bytes_at(s, body.place as usize, body.size as usize))
}
