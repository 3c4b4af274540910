//! Links by id and by the content at their ends.
#![tactic(auto)]

mod ends;
mod finding;
pub mod laws;
mod links;
mod place;
mod readable;
mod row;
mod runs;
mod spans;
mod table;
mod wanted;

pub use links::Links;
pub use row::{LinkMarks, LinkRow, WantedEnds};
pub use runs::run_span;
