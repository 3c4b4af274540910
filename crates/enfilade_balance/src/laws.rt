//! Laws of what trees owe. Each is a function that does nothing, whose contract says the law.
ghost use Rattle.enfilade_balance.specs.Laws.{BalanceStatesOfChildren, DebtsStay, StepsAreCounted, SettledTreesAreFull};

use enfilade_core::laws::nodes_are_well_formed;
use enfilade_core::{Arena, Plane};

/// What a node owes where it is not the root, and whether a step is allowed at it or under it, follows from how many
/// children it has and from what those owe and allow.
pub fn balance_states_of_children<P: Plane>(arena: &Arena<P>)
    ensures { BalanceStatesOfChildren arena.now }
{
    nodes_are_well_formed(arena);
}

/// Nodes that are added leave what the trees that are there owe, and whether a step is allowed in them.
pub fn debts_stay<P: Plane>(arena: &Arena<P>)
    ensures { DebtsStay arena.now }
{
    nodes_are_well_formed(arena);
}

/// In a tree that nobody edits, no more steps are made in turn than it owes: each of them lowers that, and nodes that
/// come in between, from other trees or where memory was refused, leave it.
pub fn steps_are_counted<P: Plane>(arena: &Arena<P>)
    ensures { StepsAreCounted arena.now }
{}

/// A tree of d levels, two or more, in which no step is allowed has at least 2^d leaves.
pub fn settled_trees_are_full<P: Plane>(arena: &Arena<P>)
    ensures { SettledTreesAreFull P.widths arena.now }
{
    nodes_are_well_formed(arena);
}
