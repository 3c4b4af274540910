//! What a kind of trees has for leaves, and how wide these are.
ghost use Rattle.std.specs.Prelude.{◌≡◌, ◌↔◌, IsTrue, IfOk};
ghost use Rattle.enfilade_core.specs.Axes.{Widths, IsProper, WidthsStay};
ghost use Rattle.enfilade_core.specs.Plain.{plain_row};

use crate::tree::Row;
use std::alloc::Global;
use tumbler::{Memory, Tumbler};

/// A kind of trees: what hangs in them, and how wide that is on both axes.
///
/// Sums and differences of places, and their order, obey the laws of `tumbler` on each plane. A width
/// stays where a row is moved, which each plane shows.
pub trait Plane {
    type Leaf: Drop;

    /// A leaf as contracts compare it.
    ghost plain: { Self.Leaf → Self.Leaf };

    /// How wide a row is on both axes, and where widths have to be proper.
    ghost widths: { Widths Self.Leaf };

    /// How wide a row is on the first axis. It takes no memory.
    fn first_width(row: &Row<Self::Leaf>) -> Tumbler
        ensures { result ≡ widths.first (plain_row plain row.now) };

    /// How wide a row is on the second axis. It takes no memory.
    fn second_width(row: &Row<Self::Leaf>) -> Tumbler
        ensures { result ≡ widths.second (plain_row plain row.now) };

    /// Whether the row's widths on both axes are as the plane wants them.
    fn is_proper(row: &Row<Self::Leaf>) -> bool
        ensures { IsTrue result ↔ IsProper widths (plain_row plain row.now) };

    /// A leaf that equals this one.
    fn copy_leaf(alloc: Global, leaf: &Self::Leaf) -> Result<Self::Leaf, Memory>
        ensures { IfOk result (λ made. plain made ≡ plain leaf.now) };

    ghost widths_stay: { WidthsStay widths };
}
