// The C interface: a queue of fragments, in 132 numbers that the caller lends.
ghost use Rattle.base_fields.specs.Answer.{given};
ghost use Rattle.table_rows.specs.Row.{rows_of};
ghost use Rattle.use_fragment_queue.specs.Held.{arrive, depart};
ghost use Rattle.film_status.specs.Status.{Returns};
ghost use Rattle.film_fragments.specs.Fragments.{GivesCall, GivesLookup, sum_numbers};

use base_ids::RowNumber;

// A fragment comes with its rows.
#[unsafe(no_mangle)]
pub extern "C" fn film_fragment_arrive(queue: &mut [u64; 132], rows: &[RowNumber]) -> u32
    ensures { GivesCall (arrive (rows_of rows.now)) queue.old queue.new result }
{
    film_fragments::film_fragment_arrive(queue, rows)
}

// The oldest fragment leaves.
#[unsafe(no_mangle)]
pub extern "C" fn film_fragment_depart(queue: &mut [u64; 132]) -> u32
    ensures { GivesCall depart queue.old queue.new result }
{
    film_fragments::film_fragment_depart(queue)
}

// out: the fragment that covers a sample, the oldest being 0, and the sample within it.
#[unsafe(no_mangle)]
pub extern "C" fn film_fragment_lookup(queue: &[u64; 132], sample: u64, out: &mut [u64; 2]) -> u32
    ensures { GivesLookup queue.now sample out.old out.new result }
{
    film_fragments::film_fragment_lookup(queue, sample, out)
}

// out: how many fragments are held, the samples that they cover, and the members among these.
#[unsafe(no_mangle)]
pub extern "C" fn film_fragment_sums(queue: &[u64; 132], out: &mut [u64; 3]) -> u32
    ensures { Returns (given queue.now) sum_numbers out.old out.new result }
{
    film_fragments::film_fragment_sums(queue, out)
}
