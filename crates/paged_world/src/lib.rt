//! A world on pages: it is written to them, and goes on with trees that were read, where these stand for what it stands for.
#![tactic(auto)]

mod adopting;
mod comparing;
mod paged;
mod saving;
mod tables;

pub use paged::OnPages;
