// The C interface: a queue of fragments, in 132 numbers that the caller lends.
#![tactic(auto)]

ghost use Rattle.base_fields.specs.Answer.{given};
ghost use Rattle.table_rows.specs.Row.{rows_of};
ghost use Rattle.use_fragment_queue.specs.Held.{arrive, depart};
ghost use Rattle.film_status.specs.Status.{Returns};
ghost use Rattle.film_fragments.specs.Fragments.{GivesCall, GivesLookup, sum_numbers};

use base_ids::RowNumber;

// A fragment comes with its rows.
pub fn film_fragment_arrive(queue: &mut [u64; 132], rows: &[RowNumber]) -> u32
    ensures { GivesCall (arrive (rows_of rows.now)) queue.old queue.new result }
{
    match use_fragment_queue::fragment_arrive(queue, rows) {
        Ok(()) => 0,
        Err(refusal) => refusal.number(),
    }
}

// The oldest fragment leaves.
pub fn film_fragment_depart(queue: &mut [u64; 132]) -> u32
    ensures { GivesCall depart queue.old queue.new result }
{
    match use_fragment_queue::fragment_depart(queue) {
        Ok(()) => 0,
        Err(refusal) => refusal.number(),
    }
}

// out: the fragment that covers a sample, the oldest being 0, and the sample within it.
pub fn film_fragment_lookup(queue: &[u64; 132], sample: u64, out: &mut [u64; 2]) -> u32
    ensures { GivesLookup queue.now sample out.old out.new result }
{
    match use_fragment_queue::fragment_lookup(queue, sample) {
        Ok(place) => {
            out[0] = place.fragment;
            out[1] = place.sample;
            0
        }
        Err(refusal) => refusal.number(),
    }
}

// out: how many fragments are held, the samples that they cover, and the members among these.
pub fn film_fragment_sums(queue: &[u64; 132], out: &mut [u64; 3]) -> u32
    ensures { Returns (given queue.now) sum_numbers out.old out.new result }
{
    let sums = use_fragment_queue::fragment_sums(queue);
    out[0] = sums.fragments;
    out[1] = sums.covered;
    out[2] = sums.members;
    0
}
