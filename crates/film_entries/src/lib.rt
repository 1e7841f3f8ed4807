// The C interface: typed entries, and whether two of them decode alike.
#![tactic(auto)]

mod decode;
mod number;

ghost use Rattle.group_alike.specs.Alike.{alike};
ghost use Rattle.film_status.specs.Status.{Returns};
ghost use Rattle.film_entries.specs.Entries.{alike_numbers};

pub use decode::{
    film_decode_alst, film_decode_prol, film_decode_rap, film_decode_rash, film_decode_roll,
    film_decode_sap, film_decode_tele,
};
use film_status::bit_of;
pub use number::{
    film_alst_piece, film_alst_sample_offset, film_rash_operation_point, film_rash_operation_points,
};

// out: 1 where two entries of one grouping type decode to the same value, else 0.
pub fn film_decode_alike(grouping_type: u32, a: &[u8], b: &[u8], out: &mut [u64; 1]) -> u32
    ensures { Returns (alike grouping_type a.now b.now) alike_numbers out.old out.new result }
{
    match group_alike::likeness_of(grouping_type, a, b) {
        Ok(same) => {
            out[0] = bit_of(same);
            0
        }
        Err(refusal) => refusal.number(),
    }
}
