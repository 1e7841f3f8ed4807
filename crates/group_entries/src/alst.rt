// Alternative startup entries: the plain fields, and an offset or a piece by number.
ghost use Rattle.std.specs.Prelude.{◌≡◌};
ghost use Rattle.base_fields.specs.Answer.{within};
ghost use Rattle.group_entries.specs.Decoded.{decode_alst, alst_offset, alst_pair};
ghost use Rattle.group_entries.specs.Told.{told_alst, told_offset, told_piece};

use super::{AlternativeStartup, AlternativeStartupPiece, check_length};
use base_fields::refusal::Refusal;

pub fn decode_alst(payload: &[u8]) -> Result<AlternativeStartup, Refusal>
    ensures { told_alst result ≡ within payload.now (decode_alst payload.now) }
{
    check_length(payload, 4)?;
    let roll_count = base_fields::read_u16(payload, 0);
    let end = 4 + 4 * (roll_count as usize);
    if payload.len() < end {
        return Err(Refusal::OffsetsCut);
    }
    let tail = payload.len() - end;
    if 0 < tail % 4 {
        return Err(Refusal::PiecesCut);
    }
    Ok(AlternativeStartup {
        roll_count,
        first_output_sample: base_fields::read_u16(payload, 2),
        piece_count: (tail / 4) as u32,
    })
}

pub fn alst_sample_offset(payload: &[u8], k: u32) -> Result<Option<u32>, Refusal>
    ensures { told_offset result ≡ within payload.now (alst_offset payload.now k) }
{
    let roll_count = decode_alst(payload)?.roll_count;
    if (roll_count as u32) <= k {
        return Ok(None);
    }
    Ok(Some(base_fields::read_u32(payload, 4 + 4 * (k as usize))))
}

pub fn alst_piece(payload: &[u8], k: u32) -> Result<Option<AlternativeStartupPiece>, Refusal>
    ensures { told_piece result ≡ within payload.now (alst_pair payload.now k) }
{
    let alst = decode_alst(payload)?;
    if alst.piece_count <= k {
        return Ok(None);
    }
    let at = 4 + 4 * (alst.roll_count as usize) + 4 * (k as usize);
    Ok(Some(AlternativeStartupPiece {
        num_output_samples: base_fields::read_u16(payload, at),
        num_total_samples: base_fields::read_u16(payload, at + 2),
    }))
}
