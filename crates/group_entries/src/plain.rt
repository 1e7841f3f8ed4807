// Entries of one or two bytes: roll, prol, rap, tele and sap.
ghost use Rattle.std.specs.Prelude.{◌≡◌};
ghost use Rattle.base_fields.specs.Answer.{within};
ghost use Rattle.group_entries.specs.Decoded.{signed16, decode_roll, decode_rap, decode_tele, decode_sap};
ghost use Rattle.group_entries.specs.Told.{told_roll, told_rap, told_tele, told_sap};

use super::{RollRecovery, StreamAccessPoint, TemporalLevel, VisualRandomAccess, check_length};
use base_fields::refusal::Refusal;

// The signed number that 16 bits hold.
pub fn signed_u16(x: u16) -> i16
    ensures { result ≡ signed16 x }
{
    if x < 32768 {
        x as i16
    } else {
        -1 - ((65535 - x) as i16)
    }
}

pub fn decode_roll(payload: &[u8]) -> Result<RollRecovery, Refusal>
    ensures { told_roll result ≡ within payload.now (decode_roll payload.now) }
{
    check_length(payload, 2)?;
    Ok(RollRecovery {
        roll_distance: signed_u16(base_fields::read_u16(payload, 0)),
    })
}

// A prol has the layout of a roll. The answer is taken apart, as the compiler makes less of one that is handed on whole.
pub fn decode_prol(payload: &[u8]) -> Result<RollRecovery, Refusal>
    ensures { told_roll result ≡ within payload.now (decode_roll payload.now) }
{
    let roll = decode_roll(payload)?;
    Ok(roll)
}

pub fn decode_rap(payload: &[u8]) -> Result<VisualRandomAccess, Refusal>
    ensures { told_rap result ≡ within payload.now (decode_rap payload.now) }
{
    check_length(payload, 1)?;
    let b = base_fields::read_u8(payload, 0);
    Ok(VisualRandomAccess {
        num_leading_samples_known: 128 <= b,
        num_leading_samples: b % 128,
    })
}

pub fn decode_tele(payload: &[u8]) -> Result<TemporalLevel, Refusal>
    ensures { told_tele result ≡ within payload.now (decode_tele payload.now) }
{
    check_length(payload, 1)?;
    let b = base_fields::read_u8(payload, 0);
    Ok(TemporalLevel {
        level_independently_decodable: 128 <= b,
    })
}

pub fn decode_sap(payload: &[u8]) -> Result<StreamAccessPoint, Refusal>
    ensures { told_sap result ≡ within payload.now (decode_sap payload.now) }
{
    check_length(payload, 1)?;
    let b = base_fields::read_u8(payload, 0);
    Ok(StreamAccessPoint {
        dependent: 128 <= b,
        sap_type: b % 16,
    })
}
