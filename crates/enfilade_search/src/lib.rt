//! The rows of a tree that stand in a range, or that meet a span.
#![tactic(auto)]

mod bounded;
mod calls;
mod gather;
pub mod laws;
mod sought;

pub use bounded::overlapping_up_to;
pub use calls::{in_range, meeting, overlapping};
