// The C interface: the points, offsets and pieces of typed entries, by number.
ghost use Rattle.base_fields.specs.Answer.{within};
ghost use Rattle.group_entries.specs.Decoded.{rash_point, rash_points, alst_offset, alst_pair};
ghost use Rattle.film_status.specs.Status.{Returns, FillsRecords, one_number};
ghost use Rattle.film_entries.specs.Entries.{point_numbers, pair_numbers};

use film_status::{NONE, put_number};

// out: bitrate and share of point k, counted from 0.
pub fn film_rash_operation_point(s: &[u8], k: u32, out: &mut [u64; 2]) -> u32
    ensures { Returns (within s.now (rash_point s.now k)) point_numbers out.old out.new result }
{
    match group_entries::rash_operation_point(s, k) {
        Ok(Some(point)) => {
            out[0] = u64::from(point.available_bitrate);
            out[1] = u64::from(point.target_rate_share);
            0
        }
        Ok(None) => NONE,
        Err(refusal) => refusal.number(),
    }
}

// points: bitrate and share of each point, in front of the lent run. out: point count.
pub fn film_rash_operation_points(s: &[u8], points: &mut [u32], out: &mut [u64; 1]) -> u32
    ensures { FillsRecords (within s.now (rash_points s.now points.old)) (λ p. p.bitrate) (λ p. p.share) points.old points.new out.old out.new result }
{
    put_number(
        group_entries::rash_operation_points(s, points).map(u64::from),
        out,
    )
}

// out: sample offset k, counted from 0.
pub fn film_alst_sample_offset(s: &[u8], k: u32, out: &mut [u64; 1]) -> u32
    ensures { Returns (within s.now (alst_offset s.now k)) one_number out.old out.new result }
{
    match group_entries::alst_sample_offset(s, k) {
        Ok(Some(offset)) => {
            out[0] = u64::from(offset);
            0
        }
        Ok(None) => NONE,
        Err(refusal) => refusal.number(),
    }
}

// out: output and total samples of piece k, counted from 0.
pub fn film_alst_piece(s: &[u8], k: u32, out: &mut [u64; 2]) -> u32
    ensures { Returns (within s.now (alst_pair s.now k)) pair_numbers out.old out.new result }
{
    match group_entries::alst_piece(s, k) {
        Ok(Some(piece)) => {
            out[0] = u64::from(piece.num_output_samples);
            out[1] = u64::from(piece.num_total_samples);
            0
        }
        Ok(None) => NONE,
        Err(refusal) => refusal.number(),
    }
}
