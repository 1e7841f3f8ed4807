// The C interface: sync samples and sample dependencies.
#![tactic(auto)]

ghost use Rattle.table_sync.specs.Sync.{is_sync, last_sync, dependency_at};
ghost use Rattle.film_status.specs.Status.{Returns};
ghost use Rattle.film_sync.specs.Sync.{sync_numbers, sample_numbers, dependency_numbers};

use base_ids::{SampleCount, SampleNumber};
use film_status::{NONE, bit_of};

// out: 1 where the sample, counted from 0, is a sync sample of the stss, else 0.
pub fn film_is_sync_sample(s: &[u8], sample: SampleCount, out: &mut [u64; 1]) -> u32
    ensures { Returns (is_sync s.now sample) sync_numbers out.old out.new result }
{
    match table_sync::is_sync_sample(s, SampleNumber(sample)) {
        Ok(sync) => {
            out[0] = bit_of(sync);
            0
        }
        Err(refusal) => refusal.number(),
    }
}

// out: the last sync sample, counted from 0, at or before a frame.
pub fn film_last_sync_sample(s: &[u8], frame: SampleCount, out: &mut [u64; 1]) -> u32
    ensures { Returns (last_sync s.now frame) sample_numbers out.old out.new result }
{
    match table_sync::last_sync_sample(s, SampleNumber(frame)) {
        Ok(Some(sample)) => {
            out[0] = sample.0 as u64;
            0
        }
        Ok(None) => NONE,
        Err(refusal) => refusal.number(),
    }
}

// out: is leading, depends on, is depended on, has redundancy.
pub fn film_sample_dependency(s: &[u8], sample: SampleCount, out: &mut [u64; 4]) -> u32
    ensures { Returns (dependency_at s.now sample) dependency_numbers out.old out.new result }
{
    match table_sync::sample_dependency(s, SampleNumber(sample)) {
        Ok(Some(d)) => {
            out[0] = d.is_leading as u64;
            out[1] = d.sample_depends_on as u64;
            out[2] = d.sample_is_depended_on as u64;
            out[3] = d.sample_has_redundancy as u64;
            0
        }
        Ok(None) => NONE,
        Err(refusal) => refusal.number(),
    }
}
