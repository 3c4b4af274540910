//! Saves: pages that are written in commits, so that a crash leaves what was saved before or what is saved now.
#![tactic(auto)]

mod commits;
pub mod laws;
mod save;

pub use save::write_all;
