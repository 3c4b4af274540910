//! The fields of which requests and replies are made: read from bytes, and scanned byte by byte.
#![tactic(auto)]

mod fields;
pub mod laws;
mod leaf;
mod lists;
mod scanned;
mod scanner;

pub use fields::{mode_at, number_at, rule_at, text_at, tumbler_at};
pub use leaf::{Leaf, LeafStep, Terminator};
pub use lists::{span_at, spans_at, spec_at, specs_at, tumblers_at};
pub use scanned::Scanned;
pub use scanner::{Ahead, Field, Progress, Role, Scanner, start};
