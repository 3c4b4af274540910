//! The nodes of an arena that are still in use: in an arena of their own, or alone in theirs.
#![tactic(auto)]

mod copying;
mod in_place;
pub mod laws;
mod marks;
mod one_tree;
mod swept;

pub use in_place::{SweepPlan, finish_sweep, plan_sweep};
pub use one_tree::{finish_tree, plan_tree};
pub use swept::sweep;
