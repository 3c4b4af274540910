//! Documents as trees: what stands at their V-addresses, as pieces of content and links.
#![tactic(auto)]

mod between;
mod delete;
mod edits;
mod exchange;
mod joined;
mod look;
mod part;
mod picked;
mod piece;
mod poom;
mod put;
mod shown;
mod swap;

pub use look::Found;
pub use poom::Poom;
