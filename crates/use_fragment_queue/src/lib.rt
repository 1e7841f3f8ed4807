// A queue of up to 64 fragments of a live sky (document 02, A12), in 132 numbers that the caller lends: the slot of the oldest fragment, how many are held, both sums,
// and 64 slots of covered and member samples. A queue whose first four numbers are 0 is empty.
#![tactic(auto)]

mod row_count;

ghost use Rattle.std.specs.Prelude.{◌≡◌};
ghost use Rattle.base_fields.specs.Refusal.{told_value};
ghost use Rattle.table_rows.specs.Row.{rows_of};
ghost use Rattle.use_fragment_queue.specs.Held.{arrive, depart};
ghost use Rattle.use_fragment_queue.specs.Ring.{held_count, covered_sum_of, member_sum};
ghost use Rattle.use_fragment_queue.specs.Queued.{GivesQueue, GivesPlace, told_located};

use base_fields::refusal::Refusal;
use base_ids::{RECORD_LIMIT, RowNumber};
use row_count::count_fragment;
use table_rows::record::record_count;

// How many fragments are held, and the sums of their samples.
#[derive(Clone, Copy)]
pub struct Sums {
    pub fragments: u64,
    pub covered: u64,
    pub members: u64,
}

// Where a sample is: its fragment, counted from the oldest held, and the sample within it.
#[derive(Clone, Copy)]
pub struct Place {
    pub fragment: u64,
    pub sample: u64,
}

const ROOM: u64 = 64;

// 64 times the limit of a fragment: no sum of a queue made by these calls is greater.
const SUM_LIMIT: u64 = 274877906880;

// A fragment comes with its rows: 55, 28, or 71 where the queue is full. Where it is refused, the queue is as it was.
pub fn fragment_arrive(queue: &mut [u64; 132], rows: &[RowNumber]) -> Result<(), Refusal>
    ensures { GivesQueue (arrive (rows_of rows.now)) queue.old queue.new (told_value result) }
{
    if RECORD_LIMIT < record_count(rows) {
        return Err(Refusal::InputTooLong);
    }
    let fragment = count_fragment(rows)?;
    let covered = fragment.covered;
    let members = fragment.members;
    let count = queue[1];
    if ROOM <= count {
        return Err(Refusal::QueueFull);
    }
    let covered_sum = queue[2];
    let members_sum = queue[3];
    // no queue made by these calls
    if SUM_LIMIT < covered_sum {
        return Err(Refusal::QueueFull);
    }
    if SUM_LIMIT < members_sum {
        return Err(Refusal::QueueFull);
    }
    let at = ((queue[0] % 64 + count) % 64) as usize;
    queue[4 + 2 * at] = covered;
    queue[5 + 2 * at] = members;
    queue[1] = count + 1;
    queue[2] = covered_sum + covered;
    queue[3] = members_sum + members;
    Ok(())
}

// The oldest fragment leaves: 72 where none is held, and the queue is as it was.
pub fn fragment_depart(queue: &mut [u64; 132]) -> Result<(), Refusal>
    ensures { GivesQueue depart queue.old queue.new (told_value result) }
{
    let count = queue[1];
    if count == 0 {
        return Err(Refusal::QueueEmpty);
    }
    let at = (queue[0] % 64) as usize;
    let covered = queue[4 + 2 * at];
    let members = queue[5 + 2 * at];
    let covered_sum = queue[2];
    let members_sum = queue[3];
    // no queue made by these calls
    if covered_sum < covered {
        return Err(Refusal::QueueEmpty);
    }
    if members_sum < members {
        return Err(Refusal::QueueEmpty);
    }
    queue[0] = (at as u64 + 1) % 64;
    queue[1] = count - 1;
    queue[2] = covered_sum - covered;
    queue[3] = members_sum - members;
    Ok(())
}

// The fragment that covers a sample, counted from the oldest held: 73 where none does.
pub fn fragment_lookup(queue: &[u64; 132], sample: u64) -> Result<Place, Refusal>
    ensures { GivesPlace queue.now sample (told_located result) }
{
    let count = queue[1];
    // no queue made by these calls
    if ROOM < count {
        return Err(Refusal::NotInQueue);
    }
    let mut at = (queue[0] % 64) as usize;
    let mut left = sample;
    for j in 0..count {
        let covered = queue[4 + 2 * at];
        if left < covered {
            return Ok(Place {
                fragment: j,
                sample: left,
            });
        }
        left -= covered;
        at = (at + 1) % 64;
    }
    Err(Refusal::NotInQueue)
}

// How many fragments are held, and both sums.
pub fn fragment_sums(queue: &[u64; 132]) -> Sums
    ensures { result ≡ record { fragments = held_count queue.now; covered = covered_sum_of queue.now; members = member_sum queue.now } }
{
    Sums {
        fragments: queue[1],
        covered: queue[2],
        members: queue[3],
    }
}
