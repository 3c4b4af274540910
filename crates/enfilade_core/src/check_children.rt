//! Which children a node may have, and what is kept of them.
ghost use Rattle.std.specs.Prelude.{◌≡◌, ◌≢◌, ◌↔◌, ◌+◌, ◌<◌, ◌≤◌, [], ◌∷◌, ◌++◌, map, min, length, All, IsTrue, IfSome, IfNone};
ghost use Rattle.tumbler.specs.Places.{IsTumbler, sum};
ghost use Rattle.enfilade_core.specs.Rows.{Rows, Branches, rows_of, node_at};
ghost use Rattle.enfilade_core.specs.Axes.{IsWellFormedRow, IsWellFormedRows, first_axis, greatest_end};
ghost use Rattle.enfilade_core.specs.WellFormed.{IsWellFormed, AreWellFormed, IsWellFormedPart};
ghost use Rattle.enfilade_core.specs.Summary.{row_summary, branch_summary, summary_in, summary_of, summaries, kept, depth_of, most_count};
ghost use Rattle.enfilade_core.specs.Plain.{shape, plain_row};
ghost use Rattle.enfilade_core.specs.Reach.{AreReaches};

use crate::arena::Arena;
use crate::plane::Plane;
use crate::reach::Reach;
use crate::summary::Summary;
use crate::tree::{Branch, Children, Node, Row};
use std::alloc::Global;
use tumbler::Tumbler;
use tumbler::laws::is_tumbler;

/// Whether coordinate and width add up to a tumbler.
#[tactic(auto, using(crate::proofs::Rooms::fitting))]
fn ends(coordinate: &Tumbler, width: &Tumbler) -> bool
    ensures fits { IsTrue result ↔ IsTumbler (sum coordinate.now width.now) }
    ensures coordinate { IsTumbler coordinate.now }
    ensures width { IsTumbler width.now }
{
    is_tumbler(coordinate);
    is_tumbler(width);
    coordinate.fits(width)
}

/// Whether two places are the same.
pub(crate) fn is_same(a: &Tumbler, b: &Tumbler) -> bool
    ensures { IsTrue result ↔ (a.now ≡ b.now) }
{
    a == b
}

/// The summary of one row, if a bottom node may have it.
#[tactic(auto, using(crate::proofs::Rooms::fitting))]
fn row_part<P: Plane>(row: &Row<P::Leaf>) -> Option<Summary>
    ensures some { IfSome result (λ s. IsWellFormedRow P.widths (plain_row P.plain row.now) × (s ≡ row_summary P.widths (plain_row P.plain row.now))) }
    ensures none { IfNone result (¬ IsWellFormedRow P.widths (plain_row P.plain row.now)) }
{
    let first_width = P::first_width(row);
    let second_width = P::second_width(row);
    if !ends(&row.first, &first_width) {
        return None;
    }
    if !ends(&row.second, &second_width) {
        return None;
    }
    if !P::is_proper(row) {
        return None;
    }
    Some(Summary {
        height: 0,
        leaves: 1,
        first: row.first,
        last: row.first,
        first_extent: row.first.add(&first_width),
        second_extent: row.second.add(&second_width),
    })
}

/// The summary of rows, if a bottom node may have them.
fn rows_summary<P: Plane>(alloc: Global, rows: &[Row<P::Leaf>]) -> Option<Summary>
    ensures some { IfSome result (λ s. IsWellFormedRows P.widths (map (plain_row P.plain) rows.now) × (s ≡ kept (summary_in P.widths [] (Rows (map (plain_row P.plain) rows.now))))) }
    ensures none { IfNone result (¬ IsWellFormedRows P.widths (map (plain_row P.plain) rows.now)) }
{
    let mut summary = Summary::none(alloc);
    for row in rows {
        let part = row_part::<P>(row)?;
        summary.append(part)?;
    }
    Some(summary)
}

impl<P: Plane> Arena<P> {
    /// The summary of a branch's rows, from its inner node's origin, if that node may have the branch.
    fn branch_part(&self, branch: &Branch, told: Option<&[Reach]>) -> Option<Summary>
        requires { IfSome told (λ reaches. AreReaches P.widths self.now reaches.now) }
        ensures some { IfSome result (λ s. IsWellFormedPart P.widths self.now branch.now × (s ≡ kept (branch_summary (summaries P.widths self.now) branch.now))) }
        ensures none { IfNone result (¬ IsWellFormedPart P.widths self.now branch.now) }
    {
        if branch.node.0 >= self.count() {
            return None;
        }
        is_tumbler(&branch.first);
        is_tumbler(&branch.second);
        let summary = self.summary(branch.node);
        if summary.leaves == 0 {
            return None;
        }
        if !is_same(&branch.first_extent, &summary.first_extent) {
            return None;
        }
        if !is_same(&branch.second_extent, &summary.second_extent) {
            return None;
        }
        let reach = self.reach(branch.node, told);
        if !branch.first.has_room(&reach.first) {
            return None;
        }
        if !branch.second.has_room(&reach.second) {
            return None;
        }
        Some(summary.moved(&branch.first, &branch.second))
    }

    /// The summary of branches, if an inner node may have them.
    fn branches_summary(&self, branches: &[Branch], told: Option<&[Reach]>) -> Option<Summary>
        requires { IfSome told (λ reaches. AreReaches P.widths self.now reaches.now) }
        ensures some { IfSome result (λ s. IsWellFormed P.widths self.now (Branches branches.now) × (s ≡ kept (summary_in P.widths (summaries P.widths self.now) (Branches branches.now)))) }
        ensures none { IfNone result (¬ IsWellFormed P.widths self.now (Branches branches.now)) }
    {
        let mut summary = Summary::none(self.allocator());
        for branch in branches {
            let part = self.branch_part(branch, told)?;
            summary.append(part)?;
        }
        if branches.is_empty() {
            return None;
        }
        Some(summary.raised())
    }

    /// The summary of children, if a node may have them.
    fn children_summary(
        &self,
        children: &Children<P::Leaf>,
        told: Option<&[Reach]>,
    ) -> Option<Summary>
        requires { IfSome told (λ reaches. AreReaches P.widths self.now reaches.now) }
        ensures some { IfSome result (λ s. IsWellFormed P.widths self.now (shape P.plain children.now) × (s ≡ kept (summary_in P.widths (summaries P.widths self.now) (shape P.plain children.now)))) }
        ensures none { IfNone result (¬ IsWellFormed P.widths self.now (shape P.plain children.now)) }
    {
        match children {
            Children::Bottom(rows) => rows_summary::<P>(self.allocator(), rows.as_slice()),
            Children::Inner(branches) => self.branches_summary(branches.as_slice(), told),
        }
    }

    /// Whether a node may have these children. It goes through all that is below them, and takes no memory.
    pub fn is_well_formed(&self, children: &Children<P::Leaf>) -> bool
        ensures { IsTrue result ↔ IsWellFormed P.widths self.now (shape P.plain children.now) }
    {
        self.children_summary(children, None).is_some()
    }

    /// Whether a node may have these children, where the reaches of the arena's nodes are at hand. It goes through the
    /// children alone, however often trees share nodes, and takes no memory.
    pub fn is_well_formed_by(&self, children: &Children<P::Leaf>, reaches: &[Reach]) -> bool
        requires { AreReaches P.widths self.now reaches.now }
        ensures { IsTrue result ↔ IsWellFormed P.widths self.now (shape P.plain children.now) }
    {
        self.children_summary(children, Some(reaches)).is_some()
    }

    /// How many levels of nodes a tree has, up to 2^32 - 1. It takes no memory.
    pub fn depth(&self, root: Node) -> u32
        requires { root.0 < length self.now }
        ensures { result ≡ min (depth_of P.widths self.now root.0) 4294967295 }
    {
        let levels = self.summary(root).height.saturating_add(1);
        if levels < 4_294_967_295 {
            levels as u32
        } else {
            u32::MAX
        }
    }

    /// How many rows a tree has, up to 2^64 - 1. It takes no memory.
    pub fn leaves(&self, root: Node) -> u64
        requires { root.0 < length self.now }
        ensures { result ≡ min (length (rows_of self.now root.0)) most_count }
    {
        self.summary(root).leaves
    }

    /// The greatest end of a tree's rows on the first axis, or zero where it has no row. It takes no memory.
    pub fn first_extent(&self, root: Node) -> Tumbler
        requires { root.0 < length self.now }
        ensures { result ≡ greatest_end (first_axis P.widths) (rows_of self.now root.0) }
    {
        self.summary(root).first_extent
    }
}
