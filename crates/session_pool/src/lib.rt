//! Workers that serve jobs over a lock with a history.
//!
//! The caller accepts jobs and hands them to workers through a channel. Each job is served with a pass of its own, which
//! the caller's pass has taken in at the end. Every job that was accepted is served once, however many workers there are.
#![tactic(auto)]

mod accept;
mod gate;
mod gather;
mod passes;
mod pool;
mod serve;
mod serving;
#[cfg(test)]
mod tests;
mod traffic;
mod work;
mod workers;

pub use accept::Accept;
pub use gate::{Gate, OpenGate};
pub use passes::IssuePasses;
pub use pool::run_pool;
pub use serve::Serve;
