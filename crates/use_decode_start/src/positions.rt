// The greatest begin of the samples of one position, by arithmetic. A sample or none is told by how many samples there are up to it, itself among them: 0 is none.
// No step depends on whether there is one, so that a position costs the same whatever the counts are.
ghost use Rattle.std.specs.Prelude.{◌≡◌, ◌<◌, ◌≤◌, ltb};
ghost use Rattle.base_fields.specs.Answer.{choose};
ghost use Rattle.table_views.specs.Search as positions;
ghost use Rattle.use_decode_start.specs.Inner.{told_distance, told_latest, frame_limit, begun_before};

use super::Distance;
use base_ids::PatternCount;

// The last turn of a pattern is cut behind `cut` samples. How far before it the last turn begins that has a position: it is the cut one, or the one before it.
fn turn_back(position: u32, cut: u32, length: u32) -> u32
    ensures { result ≡ choose (ltb position cut) 0 length }
{
    if position < cut { 0 } else { length }
}

// The last sample of a position below a limit, in a pattern that starts at sample `start`: of its n samples below the limit, `whole` are those of whole turns.
fn last_below(limit: u64, start: u64, count: PatternCount, length: u32, position: u32) -> u64
    requires { (start ≤ frame_limit) × (position < length) }
    ensures { told_latest result ≡ positions.last_below limit start count length position }
{
    let n = (count as u64).min(limit.saturating_sub(start)) as PatternCount;
    let cut = n % length;
    let whole = n - cut;
    let back = turn_back(position, cut, length);
    let next = start + position as u64 + 1;
    if whole < back {
        0
    } else {
        next + (whole - back) as u64
    }
}

// So many samples before a sample, and one; none where that is below 0.
fn before(at: u64, d: u16) -> u64
    ensures { told_latest result ≡ begun_before (told_latest at) d }
{
    at.saturating_sub(d as u64 + 1)
}

// The greatest begin of a position, whose index has this distance.
pub fn best_at(
    wanted: u64,
    start: u64,
    count: PatternCount,
    length: u32,
    position: u32,
    distance: Distance,
) -> u64
    requires { (wanted < frame_limit) × (start ≤ frame_limit) × (position < length) }
    ensures { told_latest result ≡ positions.best_at wanted start count length position (told_distance distance) }
{
    match distance {
        Distance::Nothing => 0,
        Distance::Ahead(d) => {
            let limit = (wanted + 1).saturating_sub(d as u64);
            last_below(limit, start, count, length, position)
        }
        Distance::Behind(d) => { before(last_below(wanted + 1, start, count, length, position), d) }
    }
}
