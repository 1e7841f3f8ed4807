// Sample tables and the lookups. The lent rows hold sevens, so that what is written and what stays can be seen.
ghost use Rattle.test_starred.specs.Case.{AllHold};
ghost use Rattle.test_starred_calls.specs.Tables.{sbgp_answered, csgp_answered};

use base_fields::refusal::Refusal;
use base_ids::{DescriptionIndex, SampleNumber};
use table_csgp::parse_csgp;
use table_rows::{SampleToGroup, covered_samples, group_index_for_sample};
use table_sbgp::parse_sbgp;

#[derive(Clone, Copy)]
pub struct SbgpAnswers {
    pub read: Result<SampleToGroup, Refusal>,
    pub rows: [u32; 6],
    pub sample_4: Result<DescriptionIndex, Refusal>,
    pub sample_5: Result<DescriptionIndex, Refusal>,
    pub covered: Result<u64, Refusal>,
    // A record too few.
    pub short: Result<SampleToGroup, Refusal>,
    pub short_rows: [u32; 4],
}

// Rows (3,1),(0,9),(2,1).
pub fn sbgp_calls() -> SbgpAnswers
    ensures { AllHold (sbgp_answered result) }
{
    let payload =
        b"\x00\x00\x00\x00rap \x00\x00\x00\x03\x00\x00\x00\x03\x00\x00\x00\x01\x00\x00\x00\x00\x00\x00\x00\x09\x00\x00\x00\x02\x00\x00\x00\x01";
    let mut rows = [7u32; 6];
    let read = parse_sbgp(payload, &mut rows);
    let sample_4 = group_index_for_sample(&rows, SampleNumber(4));
    let sample_5 = group_index_for_sample(&rows, SampleNumber(5));
    let covered = covered_samples(&rows);
    let mut short_rows = [7u32; 4];
    let short = parse_sbgp(payload, &mut short_rows);
    SbgpAnswers {
        read,
        rows,
        sample_4,
        sample_5,
        covered,
        short,
        short_rows,
    }
}

#[derive(Clone, Copy)]
pub struct CsgpAnswers {
    // [1,2,2] count 7, with records enough and with one too few.
    pub period: Result<SampleToGroup, Refusal>,
    pub period_rows: [u32; 10],
    pub short: Result<SampleToGroup, Refusal>,
    pub short_rows: [u32; 8],
    // [5] count 2, [5,6] count 3.
    pub joined: Result<SampleToGroup, Refusal>,
    pub joined_rows: [u32; 6],
    // [7] count 0, [8] count 1.
    pub unused: Result<SampleToGroup, Refusal>,
    pub unused_rows: [u32; 2],
    // A first length of 0, with the second pair missing and with it.
    pub cut: Result<SampleToGroup, Refusal>,
    pub cut_rows: [u32; 2],
    pub no_length: Result<SampleToGroup, Refusal>,
    pub no_length_rows: [u32; 2],
}

pub fn csgp_calls() -> CsgpAnswers
    ensures { AllHold (csgp_answered result) }
{
    let mut period_rows = [7u32; 10];
    let period = parse_csgp(
        b"\x00\x00\x00\x00rap \x00\x00\x00\x01\x37\x12\x20",
        &mut period_rows,
    );
    let mut short_rows = [7u32; 8];
    let short = parse_csgp(
        b"\x00\x00\x00\x00rap \x00\x00\x00\x01\x37\x12\x20",
        &mut short_rows,
    );
    let mut joined_rows = [7u32; 6];
    let joined = parse_csgp(
        b"\x00\x00\x00\x00rap \x00\x00\x00\x02\x12\x23\x55\x60",
        &mut joined_rows,
    );
    let mut unused_rows = [7u32; 2];
    let unused = parse_csgp(
        b"\x00\x00\x00\x00rap \x00\x00\x00\x02\x10\x11\x78",
        &mut unused_rows,
    );
    let mut cut_rows = [7u32; 2];
    let cut = parse_csgp(b"\x00\x00\x00\x00rap \x00\x00\x00\x02\x01", &mut cut_rows);
    let mut no_length_rows = [7u32; 2];
    let no_length = parse_csgp(
        b"\x00\x00\x00\x00rap \x00\x00\x00\x02\x01\x11",
        &mut no_length_rows,
    );
    CsgpAnswers {
        period,
        period_rows,
        short,
        short_rows,
        joined,
        joined_rows,
        unused,
        unused_rows,
        cut,
        cut_rows,
        no_length,
        no_length_rows,
    }
}
