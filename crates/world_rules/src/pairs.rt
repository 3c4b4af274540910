//! Pairs of positions.

/// A position on the left and one on the right that have the same content.
#[derive(Clone, Copy, Debug, PartialEq, Eq)]
pub struct Pair {
    /// The x of the V-address `1.x`.
    pub left: u32,
    pub right: u32,
}
