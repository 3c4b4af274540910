//! One store for many sessions: the history, and what each step adds to it.
#![tactic(auto)]

mod housed;
mod keeping;
pub mod laws;
mod opening;
mod step;
mod store;
mod tending;

pub use housed::{EntryView, HouseJob, Housed, Timed};
pub use opening::OpenFault;
pub use step::{Step, StepAnswer};
pub use store::{Store, StoreOver};
