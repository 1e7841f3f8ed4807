// The C interface: where decoding begins for a frame.
#![tactic(auto)]

ghost use Rattle.base_fields.specs.Fourcc as fourcc_of;
ghost use Rattle.use_decode_start.specs.Told.{told_start};
ghost use Rattle.film_status.specs.Status.{Returns, one_number};
ghost use Rattle.film_starts.specs.Starts.{ReturnsStart};

use base_fields::refusal::Refusal;
use base_ids::{SampleCount, SampleNumber};
use film_status::NONE;

// Hands the sample out.
fn put_start(start: Result<Option<SampleNumber>, Refusal>, out: &mut [u64; 1]) -> u32
    ensures { Returns (told_start start) one_number out.old out.new result }
{
    match start {
        Ok(Some(k)) => {
            out[0] = k.0 as u64;
            0
        }
        Ok(None) => NONE,
        Err(refusal) => refusal.number(),
    }
}

// out: the sample where decoding begins, by the roll group.
pub fn film_roll_start(body: &[u8], frame: SampleCount, out: &mut [u64; 1]) -> u32
    ensures { ReturnsStart body.now fourcc_of.roll frame out.old out.new result }
{
    put_start(use_decode_start::roll_start(body, SampleNumber(frame)), out)
}

// The same by the random access points.
pub fn film_rap_start(body: &[u8], frame: SampleCount, out: &mut [u64; 1]) -> u32
    ensures { ReturnsStart body.now fourcc_of.rap frame out.old out.new result }
{
    put_start(use_decode_start::rap_start(body, SampleNumber(frame)), out)
}
