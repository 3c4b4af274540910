//! Tests of contents and of documents' trees that were read from pages, beside the tables that stand with them.
#![tactic(auto)]

mod apart;
mod bytes;
mod contents;
mod documents;
mod listed;
mod parts;
mod showing;
mod shown;
mod sound;

pub use contents::are_contents;
pub use documents::{documents_are_shown, is_shown};
pub use sound::are_sound;
