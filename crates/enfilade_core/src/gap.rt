//! A gap in a tree.

use tumbler::Tumbler;

/// A gap on the first axis, and where what is behind it comes to stand.
#[derive(Clone, Copy)]
pub struct Gap {
    /// Rows before this coordinate stay as they are.
    pub from: Tumbler,
    /// Rows from `from` on and before this coordinate are taken out.
    pub to: Tumbler,
    /// Where a row at `to` comes to stand; those behind it keep their distance to it.
    pub onto: Tumbler,
}
