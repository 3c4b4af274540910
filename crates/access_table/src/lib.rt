//! Who has which document open, and for what, and which account each session has set.
#![tactic(auto, using(crate::proofs::Keyed::by_key))]

mod accounts;
mod openings;
mod table;

pub use table::AccessTable;
