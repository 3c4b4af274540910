//! Nodes are copied, with the numbers that they have in the new arena.
ghost use Rattle.std.specs.Prelude.{◌≡◌, ◌+◌, ◌<◌, [], ◌∷◌, ◌++◌, length, map, get_or, All, IfOk, OnOk, IsTrue};
ghost use Rattle.enfilade_core.specs.Rows.{node_at, branches_under};
ghost use Rattle.enfilade_core.specs.WellFormed.{IsWellFormed};
ghost use Rattle.enfilade_core.specs.NewNumbers.{renamed_branch, renamed, AreRanks, IsClosed, AreAtRanks};
ghost use Rattle.enfilade_sweep.specs.Sweep.{numbers};

use enfilade_core::laws::nodes_are_well_formed;
use enfilade_core::{Arena, Branch, Children, Node, Plane};
use std::alloc::Global;
use tumbler::{List, Memory};

/// The node of the new arena at which a node of the old one is.
pub(crate) fn node_there<P: Plane>(new: &Arena<P>, ranks: &[u64], node: Node) -> Node
    requires known { node.0 < length ranks.now }
    requires there { get_or ranks.now node.0 0 < length new.now }
    ensures { result.0 ≡ get_or ranks.now node.0 0 }
{
    let Some(there) = new.at_number(ranks[Arena::<P>::number(node) as usize]) else {
        unreachable!()
    };
    there
}

fn renamed_branches<P: Plane>(
    new: &Arena<P>,
    ranks: &[u64],
    branches: &[Branch],
) -> Result<List<Branch>, Memory>
    requires known { All (λ branch. branch.node.0 < length ranks.now) branches.now }
    requires there { All (λ branch. get_or ranks.now branch.node.0 0 < length new.now) branches.now }
    ensures { IfOk result (λ made. made.items ≡ map (renamed_branch (λ k. get_or ranks.now k 0)) branches.now) }
{
    let mut made = List::new(new.allocator());
    made.reserve(branches.len())?;
    for branch in branches {
        let mut copy = branch.copy();
        copy.node = node_there(new, ranks, branch.node);
        made.push(copy)?;
    }
    Ok(made)
}

/// Adds a copy of a node, by the numbers that what hangs under it has in the new arena. Rows are copied with what is
/// kept beside them.
fn add_renamed<P: Plane>(
    old: &Arena<P>,
    node: Node,
    ranks: &[u64],
    new: &mut Arena<P>,
) -> Result<(), Memory>
    requires below { node.0 < length old.now }
    requires known { All (λ branch. branch.node.0 < length ranks.now) (branches_under (node_at old.now node.0)) }
    requires there { All (λ branch. get_or ranks.now branch.node.0 0 < length new.old) (branches_under (node_at old.now node.0)) }
    requires well_formed { IsWellFormed P.widths new.old (renamed (λ k. get_or ranks.now k 0) (node_at old.now node.0)) }
    ensures { OnOk result (new.new ≡ new.old ++ renamed (λ k. get_or ranks.now k 0) (node_at old.now node.0) ∷ []) }
{
    match old.node(node) {
        Children::Bottom(_) => {
            new.add_copy(old, node)?;
        }
        Children::Inner(branches) => {
            let branches = renamed_branches(new, ranks, branches.as_slice())?;
            new.add_node(Children::Inner(branches))?;
        }
    }
    Ok(())
}

/// Adds a copy of the node of this number, if it is marked.
fn copy_node<P: Plane>(
    old: &Arena<P>,
    marks: &[bool],
    ranks: &[u64],
    number: u64,
    new: &mut Arena<P>,
) -> Result<(), Memory>
    requires there { number < length old.now }
    requires long { length marks.now ≡ length old.now }
    requires closed { IsClosed old.now marks.now }
    requires ranks { AreRanks marks.now ranks.now }
    requires copied { AreAtRanks marks.now old.now new.old number }
    ensures { OnOk result (AreAtRanks marks.now old.now new.new (number + 1)) }
{
    nodes_are_well_formed(old);
    nodes_are_well_formed(new);
    if !marks[number as usize] {
        return Ok(());
    }
    let Some(node) = old.at_number(number) else {
        unreachable!()
    };
    add_renamed(old, node, ranks, new)?;
    Ok(())
}

/// An arena of the marked nodes alone.
pub(crate) fn copied<P: Plane>(
    old: &Arena<P>,
    marks: &[bool],
    ranks: &[u64],
) -> Result<Arena<P>, Memory>
    requires long { length marks.now ≡ length old.now }
    requires closed { IsClosed old.now marks.now }
    requires ranks { AreRanks marks.now ranks.now }
    ensures { IfOk result (λ new. AreAtRanks marks.now old.now new (length old.now)) }
{
    let mut new = Arena::new(old.allocator());
    // Mostly the next sweep comes once there are about as many again. Without the room adding nodes is only slower.
    let _ = new.reserve(old.count());
    for number in 0..old.count() {
        copy_node(old, marks, ranks, number, &mut new)?;
    }
    Ok(new)
}

/// Where the roots are in the new arena.
pub(crate) fn renamed_roots<P: Plane>(
    new: &Arena<P>,
    ranks: &[u64],
    roots: &[Node],
) -> Result<List<Node>, Memory>
    requires known { All (λ root. root.0 < length ranks.now) roots.now }
    requires there { All (λ root. get_or ranks.now root.0 0 < length new.now) roots.now }
    ensures { IfOk result (λ made. numbers made.items ≡ map (λ k. get_or ranks.now k 0) (numbers roots.now)) }
{
    let mut made = List::new(new.allocator());
    for root in roots {
        made.push(node_there(new, ranks, *root))?;
    }
    Ok(made)
}
