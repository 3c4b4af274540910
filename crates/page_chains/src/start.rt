//! Where a chain begins.

/// How many chains a header names.
pub const CHAINS: usize = 7;

/// Where a header says that a chain begins, and how long its stream is.
#[derive(Clone, Copy, Debug, PartialEq, Eq)]
pub struct Start {
    /// The number of its first page. Any number will do where the stream has no bytes.
    pub first: u64,
    /// How many bytes its stream has.
    pub count: u64,
}
