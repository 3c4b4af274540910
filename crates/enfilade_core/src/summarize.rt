//! What is kept of children that a node may have. Nothing is asked of them here.
ghost use Rattle.std.specs.Prelude.{◌≡◌, [], map, All};
ghost use Rattle.enfilade_core.specs.Rows.{Rows, Branches};
ghost use Rattle.enfilade_core.specs.Axes.{IsWellFormedRow};
ghost use Rattle.enfilade_core.specs.WellFormed.{IsWellFormed};
ghost use Rattle.enfilade_core.specs.Summary.{summary_in, summaries, kept};
ghost use Rattle.enfilade_core.specs.Plain.{shape, plain_row};

use crate::arena::Arena;
use crate::plane::Plane;
use crate::summary::Summary;
use crate::tree::{Branch, Children, Row};
use std::alloc::Global;

/// The summary of a bottom node with these rows.
fn rows_told<P: Plane>(alloc: Global, rows: &[Row<P::Leaf>]) -> Summary
    requires { All (IsWellFormedRow P.widths) (map (plain_row P.plain) rows.now) }
    ensures { result ≡ kept (summary_in P.widths [] (Rows (map (plain_row P.plain) rows.now))) }
{
    let mut summary = Summary::none(alloc);
    for row in rows {
        summary.join_row(
            &row.first,
            &P::first_width(row),
            &row.second,
            &P::second_width(row),
        );
    }
    if let Some(last) = rows.last() {
        summary.last = last.first.copy();
    }
    summary
}

impl<P: Plane> Arena<P> {
    /// The summary of an inner node with these branches.
    fn branches_told(&self, branches: &[Branch]) -> Summary
        requires { IsWellFormed P.widths self.now (Branches branches.now) }
        ensures { result ≡ kept (summary_in P.widths (summaries P.widths self.now) (Branches branches.now)) }
    {
        let mut summary = Summary::none(self.allocator());
        for branch in branches {
            let part = self.summary(branch.node);
            summary.join_moved(&branch.first, &branch.second, part);
        }
        let last = &branches[branches.len() - 1];
        summary.last = last.first.add(&self.summary(last.node).last);
        summary.raised()
    }

    /// The summary of a node with these children.
    pub(crate) fn children_told(&self, children: &Children<P::Leaf>) -> Summary
        requires { IsWellFormed P.widths self.now (shape P.plain children.now) }
        ensures { result ≡ kept (summary_in P.widths (summaries P.widths self.now) (shape P.plain children.now)) }
    {
        match children {
            Children::Bottom(rows) => rows_told::<P>(self.allocator(), rows.as_slice()),
            Children::Inner(branches) => self.branches_told(branches.as_slice()),
        }
    }
}
