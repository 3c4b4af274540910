//! How the back end's replies are written, and read.
#![tactic(auto)]

mod got;
mod items;
pub mod laws;
mod payload;
mod replies;
mod scan;
mod writing;

pub use febe_data::{Memory, Reply, Text};
pub use got::{GotReply, read_reply};
pub use writing::{ReplyParts, reply_parts, write_reply};
