// Descriptions and typed entries.
ghost use Rattle.test_starred.specs.Case.{AllHold};
ghost use Rattle.test_starred_calls.specs.Descriptions.{sgpd_answered, entries_answered};

use base_fields::Part;
use base_fields::refusal::Refusal;
use base_ids::DescriptionIndex;
use group_entries::{
    AlternativeStartup, RateShare, RollRecovery, decode_alst, decode_rash, decode_roll,
};
use group_sgpd::{SampleGroupDescription, entry_place, parse_sgpd};

// Version 0, type abcd.
#[derive(Clone, Copy)]
pub struct SgpdAnswers {
    // 3 entries in 9 bytes.
    pub three: Result<SampleGroupDescription, Refusal>,
    pub first: Result<Option<Part>, Refusal>,
    pub second: Result<Option<Part>, Refusal>,
    pub third: Result<Option<Part>, Refusal>,
    pub fourth: Result<Option<Part>, Refusal>,
    // 2 in 3 bytes.
    pub two: Result<SampleGroupDescription, Refusal>,
    pub two_first: Result<Option<Part>, Refusal>,
    pub two_second: Result<Option<Part>, Refusal>,
    // 2 in 2 bytes.
    pub shared_out: Result<SampleGroupDescription, Refusal>,
    pub shared_out_first: Result<Option<Part>, Refusal>,
}

pub fn sgpd_calls() -> SgpdAnswers
    ensures { AllHold (sgpd_answered result) }
{
    let three = b"\x00\x00\x00\x00abcd\x00\x00\x00\x03\x00\x00\x00\x00\x00\x00\x00\x00\x00";
    let two = b"\x00\x00\x00\x00abcd\x00\x00\x00\x02\x00\x00\x00";
    let shared_out = b"\x00\x00\x00\x00abcd\x00\x00\x00\x02\x00\x00";
    SgpdAnswers {
        three: parse_sgpd(three),
        first: entry_place(three, DescriptionIndex(1)),
        second: entry_place(three, DescriptionIndex(2)),
        third: entry_place(three, DescriptionIndex(3)),
        fourth: entry_place(three, DescriptionIndex(4)),
        two: parse_sgpd(two),
        two_first: entry_place(two, DescriptionIndex(1)),
        two_second: entry_place(two, DescriptionIndex(2)),
        shared_out: parse_sgpd(shared_out),
        shared_out_first: entry_place(shared_out, DescriptionIndex(1)),
    }
}

#[derive(Clone, Copy)]
pub struct EntryAnswers {
    // 0xFFFE and 0x8000.
    pub back_2: Result<RollRecovery, Refusal>,
    pub back_32768: Result<RollRecovery, Refusal>,
    // A rash of one point in 13 bytes and in 12.
    pub rash_13: Result<RateShare, Refusal>,
    pub rash_12: Result<RateShare, Refusal>,
    // An alst of roll count 0 in 4 bytes and in 5.
    pub alst_4: Result<AlternativeStartup, Refusal>,
    pub alst_5: Result<AlternativeStartup, Refusal>,
}

pub fn entry_calls() -> EntryAnswers
    ensures { AllHold (entries_answered result) }
{
    EntryAnswers {
        back_2: decode_roll(b"\xff\xfe"),
        back_32768: decode_roll(b"\x80\x00"),
        rash_13: decode_rash(b"\x00\x01\x00\x07\x00\x00\x00\x08\x00\x00\x00\x09\x05"),
        rash_12: decode_rash(b"\x00\x01\x00\x07\x00\x00\x00\x08\x00\x00\x00\x09"),
        alst_4: decode_alst(b"\x00\x00\x00\x06"),
        alst_5: decode_alst(b"\x00\x00\x00\x06\x01"),
    }
}
