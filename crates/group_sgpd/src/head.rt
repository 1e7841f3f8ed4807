// The fixed fields of an sgpd payload (document 01, part 6).
ghost use Rattle.std.specs.Prelude.{◌≡◌, ◌≤◌, length};
ghost use Rattle.base_fields.specs.Refusal.{told_value};
ghost use Rattle.group_sgpd.specs.Head.{head_at, entry_count_at};

use super::SgpdHead;
use base_fields::INPUT_LIMIT;
use base_fields::refusal::Refusal;

// The entry count at a place, behind the fields that the version has.
fn count_at(
    s: &[u8],
    version: u8,
    default_length: u32,
    default_sample_description_index: u32,
    at: usize,
) -> Result<SgpdHead, Refusal>
    requires { (12 ≤ length s.now) × (at ≤ 16) }
    ensures { told_value result ≡ entry_count_at s.now version default_length default_sample_description_index at }
{
    if s.len() < at + 4 {
        return Err(Refusal::NoEntryCount);
    }
    Ok(SgpdHead {
        version,
        grouping_type: base_fields::read_u32(s, 4),
        default_length,
        default_sample_description_index,
        entry_count: base_fields::read_u32(s, at),
        first: at + 4,
    })
}

// The fixed fields.
pub(crate) fn sgpd_head(s: &[u8]) -> Result<SgpdHead, Refusal>
    ensures { told_value result ≡ head_at s.now }
{
    let n = s.len();
    if INPUT_LIMIT < n {
        return Err(Refusal::InputTooLong);
    }
    if n < 12 {
        return Err(Refusal::ShortSgpd);
    }
    let version = base_fields::read_u8(s, 0);
    match version {
        0 => count_at(s, version, 0, 0, 8),
        1 => count_at(s, version, base_fields::read_u32(s, 8), 0, 12),
        _ => {
            if n < 16 {
                return Err(Refusal::NoDefaultIndex);
            }
            count_at(
                s,
                version,
                base_fields::read_u32(s, 8),
                base_fields::read_u32(s, 12),
                16,
            )
        }
    }
}
