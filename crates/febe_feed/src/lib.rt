//! Requests from pieces of bytes, however these were cut.
#![tactic(auto)]

mod buffer;
mod feed;
mod greeting;
pub mod laws;

pub use feed::{Feed, Next};
