// The typed entries of a sample group description (document 01, part 7; ISO/IEC 14496-12, 10).
#![tactic(auto)]

mod alst;
mod plain;
mod rash;

ghost use Rattle.std.specs.Prelude.{◌≡◌};
ghost use Rattle.group_entries.specs.Layout.{layout_of};
ghost use Rattle.group_entries.specs.Told.{GivesLength};

pub use alst::{alst_piece, alst_sample_offset, decode_alst};
use base_fields::refusal::Refusal;
use base_fields::{INPUT_LIMIT, fourcc};
pub use plain::{decode_prol, decode_rap, decode_roll, decode_sap, decode_tele, signed_u16};
pub use rash::{decode_rash, rash_operation_point, rash_operation_points, rash_points_end};

// How an entry's bytes are laid out; Raw is any type that part 7 does not name.
#[derive(Clone, Copy)]
pub enum EntryLayout {
    Roll,
    Rap,
    Tele,
    Sap,
    Rash,
    Alst,
    Raw,
}

#[derive(Clone, Copy)]
pub struct RollRecovery {
    pub roll_distance: i16,
}

#[derive(Clone, Copy)]
pub struct VisualRandomAccess {
    pub num_leading_samples_known: bool,
    pub num_leading_samples: u8,
}

#[derive(Clone, Copy)]
pub struct TemporalLevel {
    pub level_independently_decodable: bool,
}

#[derive(Clone, Copy)]
pub struct StreamAccessPoint {
    pub dependent: bool,
    pub sap_type: u8,
}

// The plain fields of a rash; its operation points are read by number.
#[derive(Clone, Copy)]
pub struct RateShare {
    pub operation_point_count: u16,
    pub maximum_bitrate: u32,
    pub minimum_bitrate: u32,
    pub discard_priority: u8,
}

#[derive(Clone, Copy)]
pub struct RateShareOperationPoint {
    pub available_bitrate: u32,
    pub target_rate_share: u16,
}

// The plain fields of an alst; its offsets and pieces are read by number.
#[derive(Clone, Copy)]
pub struct AlternativeStartup {
    pub roll_count: u16,
    pub first_output_sample: u16,
    pub piece_count: u32,
}

#[derive(Clone, Copy)]
pub struct AlternativeStartupPiece {
    pub num_output_samples: u16,
    pub num_total_samples: u16,
}

pub fn layout_of(grouping_type: u32) -> EntryLayout
    ensures { result ≡ layout_of grouping_type }
{
    match grouping_type {
        fourcc::ROLL | fourcc::PROL => EntryLayout::Roll,
        fourcc::RAP => EntryLayout::Rap,
        fourcc::TELE => EntryLayout::Tele,
        fourcc::SAP => EntryLayout::Sap,
        fourcc::RASH => EntryLayout::Rash,
        fourcc::ALST => EntryLayout::Alst,
        _ => EntryLayout::Raw,
    }
}

// 55, then 40 under `least` bytes: the first refusals of every decoder.
fn check_length(payload: &[u8], least: usize) -> Result<(), Refusal>
    ensures { GivesLength payload.now least result }
{
    let n = payload.len();
    if least <= n {
        if n <= INPUT_LIMIT {
            return Ok(());
        }
    }
    if INPUT_LIMIT < n {
        return Err(Refusal::InputTooLong);
    }
    Err(Refusal::ShortEntry)
}
