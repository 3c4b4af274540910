//! Serves sessions over TCP, each connection by one session.
#![tactic(auto)]

mod clocks;
mod connections;
mod listening;
mod rounds;
mod sessions;
#[cfg(test)]
mod tests;

pub use clocks::MakeClock;
pub use listening::{serve_listener, serve_with_rounds};
