//! Nodes that stay in their list are moved together, and nothing of them is copied.
ghost use Rattle.std.specs.Prelude.{◌≡◌, ◌≢◌, ℕ, ◌<◌, ◌≤◌, length, map, get_or, slice_index_or, All};
ghost use Rattle.enfilade_core.specs.declared.stored_node.StoredNode.{StoredNode};
ghost use Rattle.enfilade_core.specs.Plain.{shape};
ghost use Rattle.enfilade_core.specs.StoredNode.{IsArena, held_shapes};
ghost use Rattle.enfilade_core.specs.NewNumbers.{renamed_branch, is_marked, rank, AreRanks, IsClosed, AreAtRanks};
ghost use Rattle.enfilade_core.specs.KeptMarked.{HangBelow, IsRenamed, AreMoved};

use crate::plane::Plane;
use crate::stored_node::StoredNode;
use crate::tree::{Branch, Children, Node};
use tumbler::List;

/// Gives branches the new numbers of their nodes.
fn rename_branches(branches: &mut [Branch], ranks: &[u64])
    requires { All (λ branch. branch.node.0 < length ranks.now) branches.old }
    ensures { branches.new ≡ map (renamed_branch (λ k. get_or ranks.now k 0)) branches.old }
{
    for k in 0..branches.len() {
        let number = ranks[branches[k].node.0 as usize];
        branches[k].node = Node(number);
    }
}

/// Gives what hangs under a node its new numbers.
fn rename_under<P: Plane>(node: &mut StoredNode<P::Leaf>, ranks: &[u64])
    requires { HangBelow (length ranks.now) (shape P.plain node.old.children) }
    ensures { IsRenamed P.plain (λ k. get_or ranks.now k 0) node.old node.new }
{
    if let Children::Inner(branches) = &mut node.children {
        rename_branches(branches.as_mut_slice(), ranks);
    }
}

/// Moves a marked node to its place, behind the marked ones before it. What stood there goes to where the node was.
fn move_node<P: Plane>(
    nodes: &mut [StoredNode<P::Leaf>],
    number: usize,
    place: usize,
    ranks: &[u64],
)
    requires there { number < length nodes.old }
    requires place { place ≤ number }
    requires named { (d : StoredNode P.Leaf) → HangBelow (length ranks.now) (shape P.plain (slice_index_or nodes.old number d).children) }
    ensures long { length nodes.new ≡ length nodes.old }
    ensures moved { (d : StoredNode P.Leaf) → IsRenamed P.plain (λ k. get_or ranks.now k 0) (slice_index_or nodes.old number d) (slice_index_or nodes.new place d) }
    ensures others { (k : ℕ) (d : StoredNode P.Leaf) → k ≢ number → k ≢ place → slice_index_or nodes.new k d ≡ slice_index_or nodes.old k d }
{
    rename_under::<P>(&mut nodes[number], ranks);
    nodes.swap(number, place);
}

/// Moves the marked nodes to the front, in their order, and tells how many there are.
fn move_marked<P: Plane>(nodes: &mut [StoredNode<P::Leaf>], marks: &[bool], ranks: &[u64]) -> usize
    requires long { length marks.now ≡ length nodes.old }
    requires ranks { length ranks.now ≡ length marks.now }
    requires named { (k : ℕ) (d : StoredNode P.Leaf) → k < length nodes.old → HangBelow k (shape P.plain (slice_index_or nodes.old k d).children) }
    ensures moved { AreMoved P.plain marks.now (λ k. get_or ranks.now k 0) nodes.old nodes.new (length nodes.old) }
    ensures count { result ≡ rank marks.now (length nodes.old) }
{
    let mut count = 0;
    for number in 0..nodes.len() {
        if marks[number] {
            move_node::<P>(nodes, number, count, ranks);
            count += 1;
        }
    }
    count
}

/// Keeps the marked nodes, and drops the others. It takes no memory.
pub(crate) fn keep_nodes<P: Plane>(
    nodes: &mut List<StoredNode<P::Leaf>>,
    marks: &[bool],
    ranks: &[u64],
)
    requires arena { IsArena P.plain P.widths nodes.old.items }
    requires long { length marks.now ≡ length nodes.old.items }
    requires closed { IsClosed (held_shapes P.plain nodes.old.items) marks.now }
    requires ranks { AreRanks marks.now ranks.now }
    ensures arena { IsArena P.plain P.widths nodes.new.items }
    ensures kept { AreAtRanks marks.now (held_shapes P.plain nodes.old.items) (held_shapes P.plain nodes.new.items) (length nodes.old.items) }
{
    let count = move_marked::<P>(nodes.as_mut_slice(), marks, ranks);
    nodes.truncate(count);
}
