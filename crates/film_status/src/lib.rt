// What the functions of the C interface share (the film_ crates): numbers and slices only. Each that can refuse returns a status: 0 and the values
// in `out`, NONE, or the number of a refusal. include/film_index.h declares them for C.
#![tactic(auto)]

ghost use Rattle.std.specs.Prelude.{◌≡◌};
ghost use Rattle.base_fields.specs.Refusal.{told_value};
ghost use Rattle.film_status.specs.Status.{Returns, bit, one_number};

use base_fields::refusal::Refusal;

// The status of none and done.
pub const NONE: u32 = 255;

// 1 for true.
pub fn bit_of(b: bool) -> u64
    ensures { result ≡ bit b }
{
    u64::from(b)
}

// Hands a number out.
pub fn put_number(told: Result<u64, Refusal>, out: &mut [u64; 1]) -> u32
    ensures { Returns (told_value told) one_number out.old out.new result }
{
    match told {
        Ok(n) => {
            out[0] = n;
            0
        }
        Err(refusal) => refusal.number(),
    }
}
