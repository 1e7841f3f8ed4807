// From the bytes of a film to the sample table of one of its tracks (document 02, A1): a search through five levels of containers.
#![tactic(auto)]

mod level;

ghost use Rattle.std.specs.Prelude.{◌≡◌, ◌+◌, ◌<◌, ◌≤◌, length};
ghost use Rattle.base_fields.specs.Answer.{input_limit};
ghost use Rattle.atom_path.specs.Path.{descend, stbl_at};
ghost use Rattle.atom_path.specs.Told.{levels_left, told_body};

use atom_tree::BodyAt;
use base_fields::INPUT_LIMIT;
use base_fields::refusal::Refusal;
use level::search_level;

// The levels from the top to the stbl.
const LEVELS: u32 = 5;

// Goes down the levels that are left, each within the container above it; the last one gives the answer. What stands in a frame of this recursion is kept small.
fn search_below(s: &[u8], track: u32, levels: u32, place: u64, size: u64) -> Result<BodyAt, Refusal>
    requires { (length s.now ≤ input_limit) × (0 < levels) × (levels ≤ 5) × (place + size ≤ length s.now) × (levels ≡ 5 → place + size ≡ length s.now) }
    ensures { told_body result ≡ descend s.now (levels_left levels track) (record { place = place; size = size }) }
{
    let inner = search_level(s, track, levels, place, size)?;
    if levels == 1 {
        return Ok(inner);
    }
    search_below(s, track, levels - 1, inner.place, inner.size)
}

// The body of the stbl of a track, counted from 0.
pub fn find_stbl(s: &[u8], track: u32) -> Result<BodyAt, Refusal>
    ensures { told_body result ≡ stbl_at s.now track }
{
    if INPUT_LIMIT < s.len() {
        return Err(Refusal::InputTooLong);
    }
    search_below(s, track, LEVELS, 0, s.len() as u64)
}
