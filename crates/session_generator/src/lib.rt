//! The requests of a session that needs no input.
#![tactic(auto)]

mod generating;

pub use generating::generated;
