//! Whether two trees hold the same content, however it is cut into rows and nodes.
#![tactic(auto)]

mod address;
mod bytes;
pub mod laws;
mod place;
mod stretch;
mod text;

pub use bytes::same_bytes;
pub use text::same_text;
