//! The world in trees and tables: what requests ask is answered by look-ups, and an entry changes what it touches.
#![tactic(auto, using(crate::proofs::Counted::by_session))]

mod applying;
mod balancing;
mod beside;
mod counts;
mod documents;
mod editing;
mod end_sets;
mod ends;
mod finds;
mod going_on;
mod indexing;
mod inserting;
pub mod laws;
mod lending;
mod link_making;
mod linking;
mod lookups;
mod making;
mod marking;
mod measures;
mod numbers;
mod picking;
mod positions;
mod publishing;
mod readable;
mod relating;
mod retrieving;
mod run_spans;
mod sessions;
mod sweeping;
mod tending;
mod text_reading;
mod undoing;
mod world;

pub use going_on::OtherTrees;
pub use tending::Rebalance;
pub use undoing::{Undo, UndoRecord};
pub use world::TreeWorld;
