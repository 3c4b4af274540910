//! Where two documents show the same content.
#![tactic(auto)]

mod compared;
mod comparing;
mod ends;
mod laws;
mod numbering;
mod placing;
mod positions;
mod segment;
mod starts;
mod stretch;

pub use compared::{Compared, diagonals};
pub use laws::{diagonals_are_valid, relation_of_world};
pub use placing::{Placed, runs_picked};
pub use positions::{Interval, joined};
