// The sync table stss and the dependency table sdtp (document 02, A6): both are read whole on each call, straight from the atom's body.
#![tactic(auto)]

ghost use Rattle.std.specs.Prelude.{◌≡◌, ◌+◌, ◌*◌, ◌≤◌, length, ltb};
ghost use Rattle.base_fields.specs.Answer.{given, choose, and_then, input_limit};
ghost use Rattle.base_fields.specs.Number.{be_at};
ghost use Rattle.table_sync.specs.Sync.{stss, is_sync, last_up_to, last_sync, dependency_at, dependency_of};
ghost use Rattle.base_fields.specs.Refusal.{told_value};
ghost use Rattle.table_sync.specs.Told.{told_sample, told_dependency, fields_of};

use base_fields::refusal::Refusal;
use base_fields::{INPUT_LIMIT, read_u8, read_u32};
use base_ids::SampleNumber;

// The fields of a sample in an sdtp, two bits each.
#[derive(Clone, Copy)]
pub struct SampleDependency {
    pub is_leading: u8,
    pub sample_depends_on: u8,
    pub sample_is_depended_on: u8,
    pub sample_has_redundancy: u8,
}

// A number up to the limit follows the one that was found before it.
fn later(found: u32, number: u32, limit: u64) -> u32
    ensures { result ≡ choose (ltb limit number) found number }
{
    if (number as u64) <= limit {
        number
    } else {
        found
    }
}

// The numbers of an stss that is all there, in one pass: 66 where they do not rise.
fn last_number(s: &[u8], count: u32, limit: u64) -> Result<u32, Refusal>
    requires { (8 + 4 * count ≤ length s.now) × (length s.now ≤ input_limit) × (count ≡ be_at 4 s.now 4) }
    ensures { told_value result ≡ and_then (stss s.now) (λ numbers. given (last_up_to limit numbers)) }
{
    // The smallest number that may follow.
    let mut least: u64 = 1;
    let mut found: u32 = 0;
    for k in 0..count {
        let number = read_u32(s, 8 + 4 * (k as usize));
        if (number as u64) < least {
            return Err(Refusal::SyncNotRising);
        }
        found = later(found, number, limit);
        least = number as u64 + 1;
    }
    Ok(found)
}

// The greatest number of an stss up to a limit; 0 where there is none.
fn number_up_to(s: &[u8], limit: u64) -> Result<u32, Refusal>
    ensures { told_value result ≡ and_then (stss s.now) (λ numbers. given (last_up_to limit numbers)) }
{
    if INPUT_LIMIT < s.len() {
        return Err(Refusal::InputTooLong);
    }
    if s.len() < 8 {
        return Err(Refusal::SyncTableCut);
    }
    let count = read_u32(s, 4);
    if (s.len() - 8) / 4 < count as usize {
        return Err(Refusal::SyncTableCut);
    }
    last_number(s, count, limit)
}

// Whether a sample, counted from 0, is a sync sample.
pub fn is_sync_sample(s: &[u8], sample: SampleNumber) -> Result<bool, Refusal>
    ensures { told_value result ≡ is_sync s.now sample.0 }
{
    let wanted = sample.0 as u64 + 1;
    let n = number_up_to(s, wanted)?;
    Ok(n as u64 == wanted)
}

// The last sync sample, counted from 0, at or before a frame.
pub fn last_sync_sample(s: &[u8], frame: SampleNumber) -> Result<Option<SampleNumber>, Refusal>
    ensures { told_sample result ≡ last_sync s.now frame.0 }
{
    let n = number_up_to(s, frame.0 as u64 + 1)?;
    if n == 0 {
        return Ok(None);
    }
    Ok(Some(SampleNumber(n - 1)))
}

// The fields of a byte, highest first.
fn dependency_of(b: u8) -> SampleDependency
    ensures { fields_of result ≡ dependency_of b }
{
    SampleDependency {
        is_leading: b / 64 % 4,
        sample_depends_on: b / 16 % 4,
        sample_is_depended_on: b / 4 % 4,
        sample_has_redundancy: b % 4,
    }
}

// What depends on what, of a sample counted from 0: none past the last byte of an sdtp.
pub fn sample_dependency(
    s: &[u8],
    sample: SampleNumber,
) -> Result<Option<SampleDependency>, Refusal>
    ensures { told_dependency result ≡ dependency_at s.now sample.0 }
{
    if INPUT_LIMIT < s.len() {
        return Err(Refusal::InputTooLong);
    }
    if s.len() < 4 {
        return Err(Refusal::SyncTableCut);
    }
    let k = sample.0 as usize;
    if s.len() - 4 <= k {
        return Ok(None);
    }
    Ok(Some(dependency_of(read_u8(s, 4 + k))))
}
