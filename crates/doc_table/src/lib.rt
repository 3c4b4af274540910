//! Which documents there are, where each one's tree is, and which address the next one gets.
#![tactic(auto)]

mod rows;
mod siblings;
mod table;

pub use rows::DocumentRow;
pub use table::DocTable;
