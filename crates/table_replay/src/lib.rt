// The replay of samples into rows (document 01, part 4): runs of samples of one index that join the last row or begin one, whole periods of a
// pattern in one step, and the records that rows are written to.
#![tactic(auto)]

pub mod enter;
pub mod periods;
pub mod records;
pub mod singly;
pub mod step;
