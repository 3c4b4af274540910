//! Places named by tumblers, the spans between them, and the lists that everything above is made of.
#![tactic(auto)]

mod address;
mod arithmetic;
pub mod laws;
mod list;
mod memory;
mod places;
mod span;
mod tumbler;

pub use address::MOST_DOCUMENT_PLACES;
pub use list::{List, Text};
pub use memory::Memory;
pub use span::Span;
pub use tumbler::{BadTumbler, MOST_PLACES, Tumbler};
