// The patterns of a csgp payload (document 01, part 4): its head, given where all of them are there, and where each of them stands.
#![tactic(auto)]

mod head;
mod indices;
mod walk;

pub use self::head::read_csgp;
pub use self::walk::{first_pattern, pattern_at, patterns_behind};

#[derive(Clone, Copy)]
pub struct CsgpHead {
    pub grouping_type: u32,
    pub grouping_type_parameter: u32,
    pub pattern_count: u32,
    pub index_width: u32,
    pub count_width: u32,
    pub length_width: u32,
    // The bit places of the pair table and of the indices.
    pub pairs: usize,
    pub indices: usize,
    // Whether the highest bit of an index is a mark.
    pub marks: bool,
}

// A row of the pair table.
#[derive(Clone, Copy)]
struct PatternPair {
    length: u32,
    count: u32,
}

// The patterns that are still ahead: how many, and the bit places of the first one's pair and indices.
#[derive(Clone, Copy)]
pub struct PatternsAt {
    pub left: u32,
    pub pair: usize,
    pub indices: usize,
}
