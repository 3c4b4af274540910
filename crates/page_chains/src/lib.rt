//! Streams of bytes on chains of pages, and the header that names them.
#![tactic(auto)]

mod chain;
mod fields;
mod header;
pub mod laws;
mod met;
mod reading;
mod spelling;
mod start;

pub use chain::Chain;
pub use header::Header;
pub use reading::read_header;
pub use spelling::{spell_chain, spell_header};
pub use start::{CHAINS, Start};
