// Rate share entries: the plain fields, and an operation point by number.
ghost use Rattle.std.specs.Prelude.{◌≡◌, ◌+◌, ◌*◌, ◌≤◌, eqb, length};
ghost use Rattle.base_fields.specs.Answer.{within, choose, in_front};
ghost use Rattle.base_fields.specs.Records.{numbers_of, GivesRecords};
ghost use Rattle.group_entries.specs.Decoded.{decode_rash, rash_point, rash_points, point_at, point_count, up_to};
ghost use Rattle.group_entries.specs.Told.{told_rash, told_point};

use super::{RateShare, RateShareOperationPoint, check_length};
use base_fields::refusal::Refusal;

// Where the points end: a single one is a share alone.
pub fn rash_points_end(count: u16) -> usize
    ensures { (result ≡ choose (eqb count 1) 4 (2 + 6 * count)) × (result ≤ 393212) }
{
    if count == 1 {
        4
    } else {
        2 + 6 * (count as usize)
    }
}

pub fn decode_rash(payload: &[u8]) -> Result<RateShare, Refusal>
    ensures { told_rash result ≡ within payload.now (decode_rash payload.now) }
{
    check_length(payload, 2)?;
    let count = base_fields::read_u16(payload, 0);
    if count == 0 {
        return Err(Refusal::NoPoints);
    }
    let end = rash_points_end(count);
    if payload.len() < end {
        return Err(Refusal::PointCut);
    }
    if payload.len() < end + 9 {
        return Err(Refusal::TrailerCut);
    }
    Ok(RateShare {
        operation_point_count: count,
        maximum_bitrate: base_fields::read_u32(payload, end),
        minimum_bitrate: base_fields::read_u32(payload, end + 4),
        discard_priority: base_fields::read_u8(payload, end + 8),
    })
}

pub fn rash_operation_point(
    payload: &[u8],
    k: u32,
) -> Result<Option<RateShareOperationPoint>, Refusal>
    ensures { told_point result ≡ within payload.now (rash_point payload.now k) }
{
    let plain = decode_rash(payload)?;
    let count = plain.operation_point_count;
    if (count as u32) <= k {
        return Ok(None);
    }
    if count == 1 {
        return Ok(Some(RateShareOperationPoint {
            available_bitrate: 0,
            target_rate_share: base_fields::read_u16(payload, 2),
        }));
    }
    let at = 2 + 6 * (k as usize);
    Ok(Some(RateShareOperationPoint {
        available_bitrate: base_fields::read_u32(payload, at),
        target_rate_share: base_fields::read_u16(payload, at + 4),
    }))
}

// Writes the points, of which there are more than one, in front of the run.
fn put_points(payload: &[u8], count: usize, run: &mut [u32])
    requires count_in_bounds { (2 + 6 * count ≤ length payload.now) × (2 * count ≤ length run.old) }
    requires fact { (point_count payload.now ≡ 1) → ⊥ }
    ensures { run.new ≡ in_front (numbers_of (λ p. p.bitrate) (λ p. p.share) (up_to (point_at payload.now) 0 count)) run.old }
{
    for k in 0..count {
        let at = 2 + 6 * k;
        let bitrate = base_fields::read_u32(payload, at);
        let share = base_fields::read_u16(payload, at + 4);
        run[2 * k] = bitrate;
        run[2 * k + 1] = share as u32;
    }
}

// The bitrate and the share of every point, in front of the lent run; a single point has the bitrate 0. Nothing is written on refusal.
pub fn rash_operation_points(payload: &[u8], run: &mut [u32]) -> Result<u32, Refusal>
    ensures { GivesRecords (within payload.now (rash_points payload.now run.old)) (λ p. p.bitrate) (λ p. p.share) run.old run.new result }
{
    let plain = decode_rash(payload)?;
    let count = plain.operation_point_count;
    if run.len() / 2 < (count as usize) {
        return Err(Refusal::NoRecordLeft);
    }
    if count == 1 {
        let share = base_fields::read_u16(payload, 2);
        run[0] = 0;
        run[1] = share as u32;
        return Ok(1);
    }
    put_points(payload, count as usize, run);
    Ok(count as u32)
}
