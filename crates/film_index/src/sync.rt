// The C interface: sync samples and sample dependencies.
ghost use Rattle.table_sync.specs.Sync.{is_sync, last_sync, dependency_at};
ghost use Rattle.film_status.specs.Status.{Returns};
ghost use Rattle.film_sync.specs.Sync.{sync_numbers, sample_numbers, dependency_numbers};

use base_ids::SampleCount;

// out: 1 where the sample, counted from 0, is a sync sample of the stss, else 0.
#[unsafe(no_mangle)]
pub extern "C" fn film_is_sync_sample(s: &[u8], sample: SampleCount, out: &mut [u64; 1]) -> u32
    ensures { Returns (is_sync s.now sample) sync_numbers out.old out.new result }
{
    film_sync::film_is_sync_sample(s, sample, out)
}

// out: the last sync sample, counted from 0, at or before a frame.
#[unsafe(no_mangle)]
pub extern "C" fn film_last_sync_sample(s: &[u8], frame: SampleCount, out: &mut [u64; 1]) -> u32
    ensures { Returns (last_sync s.now frame) sample_numbers out.old out.new result }
{
    film_sync::film_last_sync_sample(s, frame, out)
}

// out: is leading, depends on, is depended on, has redundancy.
#[unsafe(no_mangle)]
pub extern "C" fn film_sample_dependency(s: &[u8], sample: SampleCount, out: &mut [u64; 4]) -> u32
    ensures { Returns (dependency_at s.now sample) dependency_numbers out.old out.new result }
{
    film_sync::film_sample_dependency(s, sample, out)
}
