//! Entries of the history as bytes, each in one way in each of two formats.
#![tactic(auto)]

mod body;
mod changes;
mod counting;
mod fields;
mod format;
pub mod laws;
mod lists;
mod logged;
mod writing;

pub use body::{body_length, decode, decode_old, encode, split_body};
pub use format::LogFormat;
pub use logged::Logged;
