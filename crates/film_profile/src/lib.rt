// The C interface: the dome profile.
#![tactic(auto)]

ghost use Rattle.use_profile.specs.Told.{told_verdict};
ghost use Rattle.film_status.specs.Status.{Returns};
ghost use Rattle.film_profile.specs.Profile.{verdict_numbers, ReturnsVerdict, ReturnsFileVerdict};

use base_fields::refusal::Refusal;
use use_profile::Rule;

// Hands the verdict out.
fn put_verdict(verdict: Result<Option<Rule>, Refusal>, out: &mut [u64; 1]) -> u32
    ensures { Returns (told_verdict verdict) verdict_numbers out.old out.new result }
{
    match verdict {
        Ok(None) => {
            out[0] = 0;
            0
        }
        Ok(Some(rule)) => {
            out[0] = rule.number() as u64;
            0
        }
        Err(refusal) => refusal.number(),
    }
}

// out: 0 where the stbl of this body meets the profile, else the first rule that it breaks, counted from 1.
pub fn film_profile(body: &[u8], out: &mut [u64; 1]) -> u32
    ensures { ReturnsVerdict body.now out.old out.new result }
{
    put_verdict(use_profile::profile(body), out)
}

// The same for the stbl of a track of a film, counted from 0.
pub fn film_file_profile(s: &[u8], track: u32, out: &mut [u64; 1]) -> u32
    ensures { ReturnsFileVerdict s.now track out.old out.new result }
{
    put_verdict(use_profile::file_profile(s, track), out)
}
