//! The two formats of logged entries.

/// How a logged entry is written.
#[derive(Clone, Copy, Debug, PartialEq, Eq)]
pub enum LogFormat {
    /// With lengths of four bytes, and without a moment. Nothing is written so any more.
    Old,
    /// With lengths of eight bytes, and with the moment at which the entry was made.
    New,
}
