//! Which nodes are reached from the roots.
ghost use Rattle.std.specs.Prelude.{◌≡◌, ◌↔◌, ℕ, ◌+◌, ◌^◌, ◌<◌, [], ◌∷◌, length, map, get_or, All, IfOk, IsTrue, true, false};
ghost use Rattle.enfilade_core.specs.Rows.{node_at, branches_under};
ghost use Rattle.enfilade_core.specs.Plain.{shape};
ghost use Rattle.enfilade_core.specs.NewNumbers.{under, is_marked, AreRanks};
ghost use Rattle.enfilade_sweep.specs.Sweep.{numbers, Reached};
ghost use Rattle.enfilade_sweep.specs.Marks.{MarksMore, AreMarked};

use enfilade_core::laws::nodes_are_well_formed;
use enfilade_core::{Arena, Branch, Children, Node, Plane};
use std::alloc::Global;
use tumbler::Memory;

fn mark<P: Plane>(node: Node, marks: &mut Vec<bool>)
    requires { node.0 < length marks.old.items }
    ensures long { length marks.new.items ≡ length marks.old.items }
    ensures marked { MarksMore (node.0 ∷ []) marks.old.items marks.new.items }
{
    marks[Arena::<P>::number(node) as usize] = true;
}

fn mark_roots<P: Plane>(roots: &[Node], marks: &mut Vec<bool>)
    requires { All (λ root. root.0 < length marks.old.items) roots.now }
    ensures long { length marks.new.items ≡ length marks.old.items }
    ensures marked { MarksMore (numbers roots.now) marks.old.items marks.new.items }
{
    for root in roots {
        mark::<P>(*root, marks);
    }
}

fn mark_branches<P: Plane>(branches: &[Branch], marks: &mut Vec<bool>)
    requires { All (λ branch. branch.node.0 < length marks.old.items) branches.now }
    ensures long { length marks.new.items ≡ length marks.old.items }
    ensures marked { MarksMore (map (λ branch. branch.node.0) branches.now) marks.old.items marks.new.items }
{
    for branch in branches {
        mark::<P>(branch.node, marks);
    }
}

/// Marks what hangs under a node.
fn mark_under<P: Plane>(children: &Children<P::Leaf>, marks: &mut Vec<bool>)
    requires { All (λ branch. branch.node.0 < length marks.old.items) (branches_under (shape P.plain children.now)) }
    ensures long { length marks.new.items ≡ length marks.old.items }
    ensures marked { MarksMore (under (shape P.plain children.now)) marks.old.items marks.new.items }
{
    match children {
        Children::Bottom(_) => {}
        Children::Inner(branches) => mark_branches::<P>(branches.as_slice(), marks),
    }
}

/// Marks what hangs under the node of this number, if the node is marked.
fn mark_from<P: Plane>(old: &Arena<P>, number: u64, marks: &mut Vec<bool>)
    requires there { number < length old.now }
    requires long { length marks.old.items ≡ length old.now }
    ensures long { length marks.new.items ≡ length old.now }
    ensures marked { is_marked marks.old.items number ≡ true → MarksMore (under (node_at old.now number)) marks.old.items marks.new.items }
    ensures unmarked { is_marked marks.old.items number ≡ false → marks.new.items ≡ marks.old.items }
    ensures below { All (λ branch. branch.node.0 < number) (branches_under (node_at old.now number)) }
{
    nodes_are_well_formed(old);
    if !marks[number as usize] {
        return;
    }
    let Some(node) = old.at_number(number) else {
        unreachable!()
    };
    mark_under::<P>(old.node(node), marks);
}

/// A mark for each node: whether it is reached from the roots.
///
/// Nodes hang under later ones, so one pass from the last to the first finds all.
pub(crate) fn reached<P: Plane>(old: &Arena<P>, roots: &[Node]) -> Result<Vec<bool>, Memory>
    requires { All (λ root. root.0 < length old.now) roots.now }
    ensures { IfOk result (λ marks. AreMarked old.now (numbers roots.now) marks.items 0) }
{
    let mut marks = Vec::new(old.allocator());
    marks.resize(old.count() as usize, false)?;
    mark_roots::<P>(roots, &mut marks);
    let mut number = old.count();
    while number > 0 {
        number -= 1;
        mark_from(old, number, &mut marks);
    }
    Ok(marks)
}

/// For each node the number of marked ones before it.
pub(crate) fn ranks(alloc: Global, marks: &[bool]) -> Result<Vec<u64>, Memory>
    requires { length marks.now < 2 ^ 64 }
    ensures { IfOk result (λ made. AreRanks marks.now made.items) }
{
    let mut ranks = Vec::new(alloc);
    let mut count: u64 = 0;
    for mark in marks {
        ranks.push(count)?;
        if *mark {
            count = count.saturating_add(1);
        }
    }
    Ok(ranks)
}
