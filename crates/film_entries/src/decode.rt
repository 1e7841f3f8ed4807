// The C interface: the plain fields of typed entries.
ghost use Rattle.base_fields.specs.Answer.{within};
ghost use Rattle.group_entries.specs.Decoded.{decode_roll, decode_rap, decode_tele, decode_sap, decode_rash, decode_alst};
ghost use Rattle.group_entries.specs.Told.{told_roll};
ghost use Rattle.film_status.specs.Status.{Returns};
ghost use Rattle.film_entries.specs.Entries.{roll_numbers, rap_numbers, tele_numbers, sap_numbers, rash_numbers, alst_numbers};

use base_fields::refusal::Refusal;
use film_status::bit_of;
use group_entries::RollRecovery;

// Hands a distance out.
fn put_roll(read: Result<RollRecovery, Refusal>, out: &mut [i64; 1]) -> u32
    ensures { Returns (told_roll read) roll_numbers out.old out.new result }
{
    match read {
        Ok(roll) => {
            out[0] = i64::from(roll.roll_distance);
            0
        }
        Err(refusal) => refusal.number(),
    }
}

// out: the distance, signed.
pub fn film_decode_roll(s: &[u8], out: &mut [i64; 1]) -> u32
    ensures { Returns (within s.now (decode_roll s.now)) roll_numbers out.old out.new result }
{
    put_roll(group_entries::decode_roll(s), out)
}

// The same layout as a roll.
pub fn film_decode_prol(s: &[u8], out: &mut [i64; 1]) -> u32
    ensures { Returns (within s.now (decode_roll s.now)) roll_numbers out.old out.new result }
{
    put_roll(group_entries::decode_prol(s), out)
}

// out: known (0 or 1), number of leading samples.
pub fn film_decode_rap(s: &[u8], out: &mut [u64; 2]) -> u32
    ensures { Returns (within s.now (decode_rap s.now)) rap_numbers out.old out.new result }
{
    match group_entries::decode_rap(s) {
        Ok(rap) => {
            out[0] = bit_of(rap.num_leading_samples_known);
            out[1] = u64::from(rap.num_leading_samples);
            0
        }
        Err(refusal) => refusal.number(),
    }
}

// out: independently decodable (0 or 1).
pub fn film_decode_tele(s: &[u8], out: &mut [u64; 1]) -> u32
    ensures { Returns (within s.now (decode_tele s.now)) tele_numbers out.old out.new result }
{
    match group_entries::decode_tele(s) {
        Ok(tele) => {
            out[0] = bit_of(tele.level_independently_decodable);
            0
        }
        Err(refusal) => refusal.number(),
    }
}

// out: dependent (0 or 1), type.
pub fn film_decode_sap(s: &[u8], out: &mut [u64; 2]) -> u32
    ensures { Returns (within s.now (decode_sap s.now)) sap_numbers out.old out.new result }
{
    match group_entries::decode_sap(s) {
        Ok(sap) => {
            out[0] = bit_of(sap.dependent);
            out[1] = u64::from(sap.sap_type);
            0
        }
        Err(refusal) => refusal.number(),
    }
}

// out: point count, maximum, minimum, priority.
pub fn film_decode_rash(s: &[u8], out: &mut [u64; 4]) -> u32
    ensures { Returns (within s.now (decode_rash s.now)) rash_numbers out.old out.new result }
{
    match group_entries::decode_rash(s) {
        Ok(rash) => {
            out[0] = u64::from(rash.operation_point_count);
            out[1] = u64::from(rash.maximum_bitrate);
            out[2] = u64::from(rash.minimum_bitrate);
            out[3] = u64::from(rash.discard_priority);
            0
        }
        Err(refusal) => refusal.number(),
    }
}

// out: roll count, first output sample, piece count.
pub fn film_decode_alst(s: &[u8], out: &mut [u64; 3]) -> u32
    ensures { Returns (within s.now (decode_alst s.now)) alst_numbers out.old out.new result }
{
    match group_entries::decode_alst(s) {
        Ok(alst) => {
            out[0] = u64::from(alst.roll_count);
            out[1] = u64::from(alst.first_output_sample);
            out[2] = u64::from(alst.piece_count);
            0
        }
        Err(refusal) => refusal.number(),
    }
}
