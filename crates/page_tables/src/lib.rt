//! The tables that stand beside trees on pages, as bytes, each in one way.
#![tactic(auto)]

mod counts;
mod documents;
pub mod laws;
mod links;
mod runs;
mod tables;
mod whole;

pub use tables::{TableDocument, TableLink, Tables};
pub use whole::{read_tables, write_tables};
