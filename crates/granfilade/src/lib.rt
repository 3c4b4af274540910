//! Contents by address: the bytes of all documents in one tree.
#![tactic(auto)]

mod granfilade;
mod leaves;
mod lengthened;
mod parts;
mod reading;
mod whole;

pub use granfilade::Granfilade;
