//! Requests taken from a source, and replies put to a sink.
#![tactic(auto)]

mod put;
mod take;

pub use put::{Put, put_bytes, put_reply};
pub use take::{Taken, Turns, take_request};
