//! The trees and tables that the streams of a header spell.
#![tactic(auto)]

pub mod laws;
mod reading;
mod roots;
mod trees;

pub use reading::trees_in;
pub use trees::PageTrees;
