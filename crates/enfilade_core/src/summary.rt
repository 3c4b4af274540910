//! What an arena keeps of the rows below a node.
ghost use Rattle.std.specs.Prelude.{◌≡◌, ◌↔◌, ◌+◌, ◌^◌, ◌<◌, ◌≤◌, [], min, IsTrue, IfSome, IfNone};
ghost use Rattle.tumbler.specs.Places.{IsTumbler, sum, Fits};
ghost use Rattle.enfilade_core.specs.Axes.{later};

use std::alloc::Global;
use tumbler::Tumbler;

/// A summary of the rows below a node, kept beside its children so that no call walks a whole tree for it. All places
/// are from the node's origin.
#[derive(Clone, Copy)]
pub struct Summary {
    /// How many levels of nodes are below.
    pub height: u64,
    /// How many rows there are, up to the most that this can count.
    pub leaves: u64,
    /// Where the first row stands on the first axis.
    pub first: Tumbler,
    /// Where the last row stands on the first axis.
    pub last: Tumbler,
    /// The greatest end on the first axis, from the node's origin.
    pub first_extent: Tumbler,
    /// The greatest end on the second axis, from the node's origin.
    pub second_extent: Tumbler,
}

/// Raises an extent to an end that comes after it.
fn extend(extent: &mut Tumbler, end: Tumbler)
    ensures { extent.new ≡ later extent.old end }
{
    if extent.is_before(&end) {
        *extent = end;
    }
}

impl Summary {
    ghost use Rattle.enfilade_core.specs.Summary.{no_summary, placed_summary, summary_moved, summary_joined, raised, kept};
    ghost use Rattle.enfilade_core.specs.Following.{Follows, with_last};

    /// The summary of no rows.
    pub(crate) fn none(alloc: Global) -> Summary
        ensures { result ≡ no_summary }
    {
        let zero = Tumbler::zero(alloc);
        Summary {
            height: 0,
            leaves: 0,
            first: zero,
            last: zero,
            first_extent: zero,
            second_extent: zero,
        }
    }

    /// A copy of this summary.
    pub(crate) fn copy(&self) -> Summary
        ensures { result ≡ self.now }
    {
        *self
    }

    /// The summary of the same rows, moved on both axes.
    pub(crate) fn moved(&self, first: &Tumbler, second: &Tumbler) -> Summary
        requires first { Fits first.now self.now.first }
        requires last { Fits first.now self.now.last }
        requires first_extent { Fits first.now self.now.first_extent }
        requires second_extent { Fits second.now self.now.second_extent }
        ensures { result ≡ summary_moved first.now second.now self.now }
    {
        Summary {
            height: self.height,
            leaves: self.leaves,
            first: first.add(&self.first),
            last: first.add(&self.last),
            first_extent: first.add(&self.first_extent),
            second_extent: second.add(&self.second_extent),
        }
    }

    /// The summary of the same rows, for a node one level higher.
    pub(crate) fn raised(self) -> Summary
        requires { self.height + 1 < 2 ^ 64 }
        ensures { result ≡ raised self }
    {
        Summary {
            height: self.height + 1,
            ..self
        }
    }

    /// The rows of the neighbour behind join these.
    fn join(&mut self, part: Summary)
        ensures { self.new ≡ kept (summary_joined self.old part) }
    {
        if self.leaves == 0 {
            self.first = part.first;
        }
        self.height = part.height;
        self.leaves = self.leaves.saturating_add(part.leaves);
        self.last = part.last;
        extend(&mut self.first_extent, part.first_extent);
        extend(&mut self.second_extent, part.second_extent);
    }

    /// A row at these places, with these widths, joins these rows. Where the last row stands is left as it was.
    #[tactic(auto, using(crate::proofs::Rooms::fitting))]
    pub(crate) fn join_row(
        &mut self,
        first: &Tumbler,
        first_width: &Tumbler,
        second: &Tumbler,
        second_width: &Tumbler,
    )
        requires first { IsTumbler (sum first.now first_width.now) }
        requires second { IsTumbler (sum second.now second_width.now) }
        ensures { self.new ≡ with_last self.old.last (kept (summary_joined self.old (placed_summary first.now first_width.now second.now second_width.now))) }
    {
        if self.leaves == 0 {
            self.first = *first;
        }
        self.height = 0;
        self.leaves = self.leaves.saturating_add(1);
        extend(&mut self.first_extent, first.add(first_width));
        extend(&mut self.second_extent, second.add(second_width));
    }

    /// What is told of a node joins these rows, moved on both axes. Where the last row stands is left as it was.
    pub(crate) fn join_moved(&mut self, first: &Tumbler, second: &Tumbler, part: &Summary)
        requires first { Fits first.now part.now.first }
        requires first_extent { Fits first.now part.now.first_extent }
        requires second_extent { Fits second.now part.now.second_extent }
        ensures { self.new ≡ with_last self.old.last (kept (summary_joined self.old (summary_moved first.now second.now part.now))) }
    {
        if self.leaves == 0 {
            self.first = first.add(&part.first);
        }
        self.height = part.height;
        self.leaves = self.leaves.saturating_add(part.leaves);
        extend(&mut self.first_extent, first.add(&part.first_extent));
        extend(&mut self.second_extent, second.add(&part.second_extent));
    }

    /// The rows of the neighbour behind join these, if that one may stand there.
    pub(crate) fn append(&mut self, part: Summary) -> Option<()>
        ensures some { IfSome result (λ _. Follows self.old part × (self.new ≡ kept (summary_joined self.old part))) }
        ensures none { IfNone result (¬ Follows self.old part) }
    {
        if self.leaves == 0 {
            self.join(part);
            return Some(());
        }
        if self.height != part.height {
            return None;
        }
        if part.first.is_before(&self.last) {
            return None;
        }
        self.join(part);
        Some(())
    }
}
