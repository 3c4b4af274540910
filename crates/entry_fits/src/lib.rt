//! When a kept entry can come after kept entries, as a definition and a function, and that the entries of accepted
//! changes do.
#![tactic(auto)]

mod changes;
mod documents;
mod entry;
pub mod laws;
mod picking;
mod serials;

pub use entry::fits;
pub use serials::Serials;
