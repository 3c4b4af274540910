//! Trees to pages and back: loading, with its tests, and saves.
#![tactic(auto)]

mod flush;
pub mod laws;
mod loading;
mod owned;
mod shown;
mod soundness;
mod trees;

pub use flush::{Flush, NodeCounts};
pub use loading::{Opened, load, open_pages};
pub use trees::Trees;
