//! The lists of a plain world: scans that look things up in them, and edits that build new ones.
#![tactic(auto)]

pub mod counts;
pub mod deletions;
pub mod edits;
pub mod end_index;
pub mod finding;
pub mod intervals;
mod links;
pub mod picks;
pub mod relation;
pub mod runs;
pub mod search;
pub mod swaps;

pub use links::LinkRow;
