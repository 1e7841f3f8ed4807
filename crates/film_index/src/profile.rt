// The C interface: the dome profile.
ghost use Rattle.film_profile.specs.Profile.{ReturnsVerdict, ReturnsFileVerdict};

// out: 0 where the stbl of this body meets the profile, else the first rule that it breaks, counted from 1.
#[unsafe(no_mangle)]
pub extern "C" fn film_profile(body: &[u8], out: &mut [u64; 1]) -> u32
    ensures { ReturnsVerdict body.now out.old out.new result }
{
    film_profile::film_profile(body, out)
}

// The same for the stbl of a track of a film, counted from 0.
#[unsafe(no_mangle)]
pub extern "C" fn film_file_profile(s: &[u8], track: u32, out: &mut [u64; 1]) -> u32
    ensures { ReturnsFileVerdict s.now track out.old out.new result }
{
    film_profile::film_file_profile(s, track, out)
}
