//! The words of the server's command line.
#![tactic(auto)]

mod address;
mod number;
#[cfg(test)]
mod tests;
mod words;

pub use words::{ServerWords, WordsFault, read_words, usage};
