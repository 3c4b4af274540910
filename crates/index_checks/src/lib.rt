//! Tests that loading makes of the indexes that were read.
#![tactic(auto)]

mod covering;
mod holding;
mod point;
mod reaches;
mod run_covering;
mod runs;
mod sorting;

pub use covering::are_covered;
pub use holding::hold_runs;
