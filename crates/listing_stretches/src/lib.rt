// The stretch of like samples in hand while a table's samples are entered run by run (document 01, part 8), and whole periods of a pattern
// that are passed in one step.
#![tactic(auto)]

mod ends;
mod enter;
mod periods;
mod recall;

use base_ids::PatternCount;
pub use ends::{begin_listing, close_stretch};
pub use enter::{enter_run, put_stretch};
use listing_meanings::MeaningAt;
pub use periods::pass_periods;

// A place in the output, and the stretch in hand: how many samples, and the index of its first one. Without samples there is none.
#[derive(Clone, Copy)]
pub struct Hand {
    pub at: usize,
    pub samples: u64,
    pub index: u32,
}

// What is in hand, what its index means, and how many other indices that mean the same were remembered (see `remember`).
#[derive(Clone, Copy)]
pub struct Progress {
    pub hand: Hand,
    pub meaning: MeaningAt,
    pub kept: u32,
}

// What was in hand at a sample of a pattern.
#[derive(Clone, Copy)]
pub struct Mark {
    pub sample: PatternCount,
    pub hand: Hand,
}
