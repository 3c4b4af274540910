//! The bytes of requests.
#![tactic(auto)]

mod edits;
mod got;
pub mod laws;
mod links;
mod parts;
mod questions;
mod request;
mod scan;
mod writing;

pub use febe_data::{Memory, Request, Text};
pub use got::{Got, read_at_once, read_request, read_spelled};
pub use parts::{GotNumber, GotSpans, read_number, read_spans};
pub use scan::{RequestProgress, RequestScanner};
pub use writing::{write_number, write_request, write_tumbler};
