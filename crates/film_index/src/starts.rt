// The C interface: where decoding begins for a frame.
ghost use Rattle.base_fields.specs.Fourcc as fourcc_of;
ghost use Rattle.film_starts.specs.Starts.{ReturnsStart};

use base_ids::SampleCount;

// out: the sample where decoding begins, by the roll group.
#[unsafe(no_mangle)]
pub extern "C" fn film_roll_start(body: &[u8], frame: SampleCount, out: &mut [u64; 1]) -> u32
    ensures { ReturnsStart body.now fourcc_of.roll frame out.old out.new result }
{
    film_starts::film_roll_start(body, frame, out)
}

// The same by the random access points.
#[unsafe(no_mangle)]
pub extern "C" fn film_rap_start(body: &[u8], frame: SampleCount, out: &mut [u64; 1]) -> u32
    ensures { ReturnsStart body.now fourcc_of.rap frame out.old out.new result }
{
    film_starts::film_rap_start(body, frame, out)
}
