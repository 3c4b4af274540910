//! The log of edits on a disk, where each edit stands behind a gate of its own, with the moment at which it was made.
//!
//! The log is in the second area, and a gate in front of it opens all of it. While that is closed the log of before is
//! read, which has no moments and an area of its own. Opening moves it: its entries are written behind the closed gate and
//! made stable, then the gate is opened, and then the area of before is emptied. So whatever a crash leaves, one of the two
//! areas has the whole log, and the other counts for nothing.
#![tactic(auto)]

pub mod laws;
mod log;
mod migrating;
mod opening;
mod pending;
mod phases;
mod reading;
mod scanning;

pub use log::{Appended, EditLog};
pub use opening::LogFault;
