//! A lock with a history, for any value that keeps one.
//!
//! The value lies behind the lock, and its history only grows. Whoever has a pass of the lock can make a play on the
//! value, and see how long its history is. What a pass has seen, and which entries are its own, its contracts say.
#![tactic(auto)]

mod calls;
mod holding;
mod kept;
pub mod laws;
mod lock;
mod pass;
mod steps;
mod tried;
mod view;

pub use kept::{Kept, Played};
pub use lock::HistoryLock;
pub use pass::{Pass, Token};
pub use tried::{Acted, Trial, Tried};
pub use view::{Held, MarkedAct, View};
