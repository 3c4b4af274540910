//! The world as plain lists: what each request does to it, when it is refused, and what it answers.
#![tactic(auto)]

mod byte_index;
mod changes;
mod ends;
mod finding;
mod flat;
mod lookups;
mod picks;
mod relation;
mod requests;
mod retrieve;
mod runs;

pub use flat::FlatWorld;
pub use flat_rows::LinkRow;
pub use world_rules::{
    AccountRow, ByteRow, Effect, End, OpenRow, Pair, Part, Row, Served, SessionRow,
};
