//! Spans and the keys that they were added for, found by what they meet.
#![tactic(auto)]

mod groups;
mod joining;
mod keys;
pub mod laws;
mod lengthening;
mod spanfilade;

pub use joining::joined;
pub use spanfilade::Spanfilade;
