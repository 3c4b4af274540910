//! The children of a node around those that an exchange touches. They are left as they stand under it.
ghost use Rattle.std.specs.Prelude.{◌≡◌, ◌+◌, ◌<◌, ◌≤◌, ◌++◌, map, drop, take, length, All, IsTrue, false, IfOk, OnOk};
ghost use Rattle.tumbler.specs.Places.{IsUpTo};
ghost use Rattle.enfilade_core.specs.Rows.{Branches, moved, rows_of, node_at, branches_under, rows_under, IsInner, IsBottom};
ghost use Rattle.enfilade_core.specs.Axes.{IsWellFormedRow};
ghost use Rattle.enfilade_core.specs.WellFormed.{IsWellFormed, IsWellFormedPart};
ghost use Rattle.enfilade_core.specs.Plain.{plain_row};
ghost use Rattle.enfilade_core.specs.Edits.{shifted};
ghost use Rattle.enfilade_core.specs.Exchange.{rows_past, IsWellFormedAt, MayBeRoot, Grows};
ghost use Rattle.enfilade_core.specs.Packing.{branch_back};
ghost use Rattle.enfilade_core.specs.Touched.{branches_at, IsSeenFrom, StandBefore, IsTouched, LiesWithin, with_middle, around_middle, MayBePacked};

use crate::arena::Arena;
use crate::gap::Gap;
use crate::laws::nodes_are_well_formed;
use crate::move_children::branches_moved;
use crate::pack_children::branch_back;
use crate::plane::Plane;
use crate::siblings::Behind;
use crate::tree::{Branch, Children, Node, Row};
use std::alloc::Global;
use tumbler::laws::is_tumbler;
use tumbler::{List, Memory, Tumbler};

/// The children of a node that an exchange touches, or what came of them, at places from the node's base on.
#[derive(Drop)]
pub struct Touched {
    /// The node's children before this number stay.
    pub front: usize,
    /// The node's children from this number on are left or moved as a whole.
    pub behind: usize,
    /// What stands between.
    pub branches: List<Branch>,
    /// What comes of those behind, as the node sees them.
    pub rest: List<Branch>,
}

/// A coordinate, as it is seen from a base. From one behind it, it is zero.
pub(crate) fn seen_from(at: &Tumbler, base: &Tumbler) -> Tumbler
    ensures { IsSeenFrom at.now base.now result }
{
    if at.is_before(base) {
        return Tumbler::zero(at.allocator());
    }
    let seen = at.minus(base);
    is_tumbler(&seen);
    seen
}

/// Copies of branches go behind others.
pub(crate) fn append_branches(branches: &[Branch], into: &mut List<Branch>) -> Result<(), Memory>
    ensures { OnOk result (into.new.items ≡ into.old.items ++ branches.now) }
{
    into.extend_from_slice(branches)
}

/// Branches, as they are seen from an origin, go behind others.
fn append_back(
    branches: &[Branch],
    first: &Tumbler,
    second: &Tumbler,
    into: &mut List<Branch>,
) -> Result<(), Memory>
    requires first_up_to { All (λ branch. IsUpTo first.now branch.first) branches.now }
    requires second_up_to { All (λ branch. IsUpTo second.now branch.second) branches.now }
    ensures { OnOk result (into.new.items ≡ into.old.items ++ map (branch_back first.now second.now) branches.now) }
{
    for branch in branches {
        into.push(branch_back(branch, first, second))?;
    }
    Ok(())
}

/// Whether none of the branches comes before an origin on either axis.
fn none_before(branches: &[Branch], first: &Tumbler, second: &Tumbler) -> bool
    ensures first { IsTrue result → All (λ branch. IsUpTo first.now branch.first) branches.now }
    ensures second { IsTrue result → All (λ branch. IsUpTo second.now branch.second) branches.now }
{
    for branch in branches {
        if branch.first.is_before(first) {
            return false;
        }
        if branch.second.is_before(second) {
            return false;
        }
    }
    true
}

impl<P: Plane> Arena<P> {
    /// Whether rows hang under a node.
    pub(crate) fn is_bottom(&self, node: Node) -> bool
        requires { node.0 < length self.now }
        ensures bottom { IsTrue result → IsBottom (node_at self.now node.0) }
        ensures inner { (result ≡ false) → IsInner (node_at self.now node.0) }
    {
        match self.node(node) {
            Children::Bottom(_) => true,
            Children::Inner(_) => false,
        }
    }

    /// The rows under a bottom node.
    pub(crate) fn rows_under(&self, node: Node) -> &[Row<P::Leaf>]
        requires below { node.0 < length self.now }
        requires bottom { IsBottom (node_at self.now node.0) }
        ensures { map (plain_row P.plain) result.now ≡ rows_under (node_at self.now node.0) }
    {
        match self.node(node) {
            Children::Bottom(rows) => rows.as_slice(),
            Children::Inner(_) => unreachable!(),
        }
    }

    /// The branches under an inner node.
    fn branches_under(&self, node: Node) -> &[Branch]
        requires below { node.0 < length self.now }
        requires inner { IsInner (node_at self.now node.0) }
        ensures { result.now ≡ branches_under (node_at self.now node.0) }
    {
        match self.node(node) {
            Children::Bottom(_) => unreachable!(),
            Children::Inner(branches) => branches.as_slice(),
        }
    }

    /// The first branch that an exchange may touch: the last one that has a row before the gap, or the first.
    fn touched_from(&self, branches: &[Branch], base: &Tumbler, gap: &Gap) -> usize
        requires well_formed { IsWellFormed P.widths self.now (Branches branches.now) }
        ensures there { result < length branches.now }
        ensures front { StandBefore self.now gap.now.from base.now (take result branches.now) }
    {
        self.chosen(branches, &seen_from(&gap.from, base))
    }

    /// The children of an inner node that an exchange touches, at places from the base on.
    pub(crate) fn touched(
        &self,
        node: Node,
        first: &Tumbler,
        second: &Tumbler,
        gap: &Gap,
    ) -> Result<Touched, Memory>
        requires at { IsWellFormedAt P.widths self.now node.0 first.now second.now }
        requires inner { IsInner (node_at self.now node.0) }
        requires rows { All (IsWellFormedRow P.widths) (shifted gap.now.to gap.now.onto (rows_past gap.now.to (map (moved first.now second.now) (rows_of self.now node.0)))) }
        ensures { IfOk result (λ made. IsTouched P.widths self.now gap.now first.now second.now (branches_at first.now second.now (branches_under (node_at self.now node.0))) made) }
    {
        let alloc = self.allocator();
        let branches = self.branches_under(node);
        let front = self.touched_from(branches, first, gap);
        let Behind { behind, rest } = self.behind(branches, front, first, second, gap)?;
        let (up_to, _) = branches.split_at(behind);
        let (_, within) = up_to.split_at(front);
        let branches = branches_moved(alloc, within, first, second)?;
        Ok(Touched {
            front,
            behind,
            branches,
            rest,
        })
    }

    /// The children of a node with others in the middle, all as they are seen from the node.
    pub(crate) fn around(
        &self,
        node: Node,
        first: &Tumbler,
        second: &Tumbler,
        touched: &Touched,
    ) -> Result<List<Branch>, Memory>
        requires below { node.0 < length self.now }
        requires inner { IsInner (node_at self.now node.0) }
        requires within { LiesWithin first.now second.now (branches_under (node_at self.now node.0)) touched.now }
        requires first_up_to { All (λ branch. IsUpTo first.now branch.first) touched.now.branches.items }
        requires second_up_to { All (λ branch. IsUpTo second.now branch.second) touched.now.branches.items }
        ensures { IfOk result (λ made. made.items ≡ around_middle first.now second.now (branches_under (node_at self.now node.0)) touched.now) }
    {
        let branches = self.branches_under(node);
        let (front, _) = branches.split_at(touched.front);
        let mut made = List::new(self.allocator());
        let room = front.len().saturating_add(touched.branches.len());
        made.reserve(room.saturating_add(touched.rest.len()))?;
        append_branches(front, &mut made)?;
        append_back(touched.branches.as_slice(), first, second, &mut made)?;
        append_branches(touched.rest.as_slice(), &mut made)?;
        Ok(made)
    }

    /// The children of a node with others in the middle, all at places from the base on.
    fn around_opened(
        &self,
        node: Node,
        first: &Tumbler,
        second: &Tumbler,
        touched: &Touched,
    ) -> Result<List<Branch>, Memory>
        requires at { IsWellFormedAt P.widths self.now node.0 first.now second.now }
        requires inner { IsInner (node_at self.now node.0) }
        requires within { LiesWithin first.now second.now (branches_under (node_at self.now node.0)) touched.now }
        ensures { IfOk result (λ made. made.items ≡ with_middle first.now second.now (branches_at first.now second.now (branches_under (node_at self.now node.0))) touched.now) }
    {
        let alloc = self.allocator();
        let branches = self.branches_under(node);
        let (front, _) = branches.split_at(touched.front);
        let mut made = branches_moved(alloc, front, first, second)?;
        append_branches(touched.branches.as_slice(), &mut made)?;
        let rest = branches_moved(alloc, touched.rest.as_slice(), first, second)?;
        append_branches(rest.as_slice(), &mut made)?;
        Ok(made)
    }

    /// A new node with the branch's origin: its children with others in the middle, none of which comes
    /// before the origin.
    fn kept_packed(&mut self, branch: &Branch, touched: &Touched) -> Result<Option<Branch>, Memory>
        requires part { IsWellFormedPart P.widths self.old branch.now }
        requires inner { IsInner (node_at self.old branch.now.node.0) }
        requires within { LiesWithin branch.now.first branch.now.second (branches_under (node_at self.old branch.now.node.0)) touched.now }
        requires well_formed { MayBeRoot P.widths self.old (Branches (with_middle branch.now.first branch.now.second (branches_at branch.now.first branch.now.second (branches_under (node_at self.old branch.now.node.0))) touched.now)) }
        requires first_up_to { All (λ b. IsUpTo branch.now.first b.first) touched.now.branches.items }
        requires second_up_to { All (λ b. IsUpTo branch.now.second b.second) touched.now.branches.items }
        ensures grows { Grows self.old self.new }
        ensures packed { IfOk result (λ made. MayBePacked P.widths self.old self.new (Branches (with_middle branch.now.first branch.now.second (branches_at branch.now.first branch.now.second (branches_under (node_at self.old branch.now.node.0))) touched.now)) made) }
    {
        nodes_are_well_formed(self);
        let children = self.around(branch.node, &branch.first, &branch.second, touched)?;
        if children.is_empty() {
            return Ok(None);
        }
        let made = self.placed(
            Children::Inner(children),
            branch.first.copy(),
            branch.second.copy(),
        )?;
        Ok(Some(made))
    }

    /// A new node: the children of a branch's node with others in the middle. It keeps the branch's origin,
    /// unless one of the others comes before that on some axis.
    pub(crate) fn repacked(
        &mut self,
        branch: &Branch,
        touched: &Touched,
    ) -> Result<Option<Branch>, Memory>
        requires part { IsWellFormedPart P.widths self.old branch.now }
        requires inner { IsInner (node_at self.old branch.now.node.0) }
        requires within { LiesWithin branch.now.first branch.now.second (branches_under (node_at self.old branch.now.node.0)) touched.now }
        requires well_formed { MayBeRoot P.widths self.old (Branches (with_middle branch.now.first branch.now.second (branches_at branch.now.first branch.now.second (branches_under (node_at self.old branch.now.node.0))) touched.now)) }
        ensures grows { Grows self.old self.new }
        ensures packed { IfOk result (λ made. MayBePacked P.widths self.old self.new (Branches (with_middle branch.now.first branch.now.second (branches_at branch.now.first branch.now.second (branches_under (node_at self.old branch.now.node.0))) touched.now)) made) }
    {
        if none_before(touched.branches.as_slice(), &branch.first, &branch.second) {
            return self.kept_packed(branch, touched);
        }
        let children = self.around_opened(branch.node, &branch.first, &branch.second, touched)?;
        if children.is_empty() {
            return Ok(None);
        }
        let made = self.branches_packed(children.as_slice())?;
        Ok(Some(made))
    }
}
