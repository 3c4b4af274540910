//! The balancer of trees of shared nodes: it splits nodes with many children, merges neighbours with few, and drops
//! a root over one node.
#![tactic(auto)]

mod balance;
mod debts;
mod finding;
mod halves;
pub mod laws;
mod merging;
mod opening;
mod path;
mod roots;

pub use balance::{Balance, balance_step};
pub use debts::{allows, debt};
