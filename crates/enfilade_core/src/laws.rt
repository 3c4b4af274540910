//! The laws of rows and of nodes. Each is a function that does nothing, whose contract says the law.
ghost use Rattle.std.specs.Prelude.{◌<◌, ◌^◌, length};
ghost use Rattle.enfilade_core.specs.Rows.{rows_of};
ghost use Rattle.enfilade_core.specs.WellFormed.{AreWellFormed};
ghost use Rattle.enfilade_core.specs.Laws.{RowsOfChildren, RowsStay, ExchangeIsThreeEdits, DepthsCountLevels};

use crate::arena::Arena;
use crate::plane::Plane;
use crate::tree::Node;

/// The rows of a tree from any base are those of its root's children, one after another: a leaf at the
/// base plus its displacement, and a node's rows from the base plus the node's displacement.
pub fn rows_of_children<P: Plane>(arena: &Arena<P>)
    ensures { RowsOfChildren arena.now }
{
    nodes_are_well_formed(arena);
}

/// Nodes that are added leave the rows of those that are there.
pub fn rows_stay<P: Plane>(arena: &Arena<P>)
    ensures { RowsStay arena.now }
{}

/// An exchange leaves the rows that a cut, a shift and a splice would leave, one after another, where what is
/// behind the gap does not come before it.
pub fn exchange_is_three_edits<P: Plane>(arena: &Arena<P>, root: Node)
    requires { root.0 < length arena.now }
    ensures { ExchangeIsThreeEdits (rows_of arena.now root.0) }
{
    nodes_are_well_formed(arena);
}

/// Each node of an arena has well formed children among those before it: with lesser numbers, and all bottom nodes
/// below it equally deep.
pub fn nodes_are_well_formed<P: Plane>(arena: &Arena<P>)
    ensures { AreWellFormed P.widths arena.now }
{
    let _ = arena.allocator();
}

/// An arena has fewer nodes than 64 bits count.
pub(crate) fn nodes_are_few<P: Plane>(arena: &Arena<P>)
    ensures { length arena.now < 2 ^ 64 }
{
    let _ = arena.count();
}

/// How many levels of nodes a tree has: a node with rows is one level, and any other node is one level more than each
/// of its children.
pub fn depths_count_levels<P: Plane>(arena: &Arena<P>)
    ensures { DepthsCountLevels P.widths arena.now }
{
    nodes_are_well_formed(arena);
}
