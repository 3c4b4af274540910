//! The nodes of arenas as streams of bytes, which pages are to hold.
#![tactic(auto)]

mod fields;
pub mod laws;
mod nodes;
mod planes;
mod rows;
mod streams;

pub use planes::PagedPlane;
pub use streams::{append_nodes, read_nodes};
