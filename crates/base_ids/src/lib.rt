// What samples and descriptions are counted in (document 01, part 5: neither number may stand in for the other).
#![tactic(auto)]

// How many samples a row covers. The width of every such count and of every sample number is this one.
pub type SampleCount = u32;

// How many samples a pattern covers, and a place among them: a field of an atom, at most 32 bits.
pub type PatternCount = u32;

// The numbers of a run of rows: a sample count and a description index for each row.
pub type RowNumber = SampleCount;

// How many numbers of a run make a record.
pub const RECORD_NUMBERS: usize = 2;

// The largest count of a row.
pub const COUNT_LIMIT: SampleCount = 4294967295;

// The most records that a call reads.
pub const RECORD_LIMIT: usize = 8388608;

// A sample's number, counted from 0.
#[derive(Clone, Copy)]
pub struct SampleNumber(pub SampleCount);

// The number of a group description, counted from 1; 0 is none.
#[derive(Clone, Copy)]
pub struct DescriptionIndex(pub u32);

// Bit 31 of an index: it is local to a fragment.
pub const LOCAL_MARK: u32 = 2147483648;
