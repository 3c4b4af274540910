//! Where a branch stands beside a gap, and branches that move as a whole.
ghost use Rattle.std.specs.Prelude.{◌≡◌, ◌≢◌, [], All, IfSome};
ghost use Rattle.tumbler.specs.Places.{comes_before};
ghost use Rattle.enfilade_core.specs.Rows.{branch_rows, rows_table};
ghost use Rattle.enfilade_core.specs.Axes.{InOrder, IsWellFormedRow};
ghost use Rattle.enfilade_core.specs.WellFormed.{IsWellFormedPart};
ghost use Rattle.enfilade_core.specs.Summary.{height_of};
ghost use Rattle.enfilade_core.specs.Following.{first_coordinate, last_coordinate};
ghost use Rattle.enfilade_core.specs.Edits.{shifted};
ghost use Rattle.enfilade_core.specs.Exchange.{IsBeside, BranchHasRows};
ghost use Rattle.enfilade_core.specs.declared.compare_gap.Beside.TheVariants.{Past as AllPast};

use crate::arena::Arena;
use crate::gap::Gap;
use crate::laws::nodes_are_well_formed;
use crate::plane::Plane;
use crate::tree::Branch;
use tumbler::Tumbler;

/// Where the rows of a branch stand, beside a gap.
#[derive(Clone, Copy, Debug, PartialEq, Eq)]
pub enum Beside {
    /// All before the gap.
    Before,
    /// All in it.
    Within,
    /// All behind it.
    Past,
    /// Some here and some there.
    Across,
}

impl<P: Plane> Arena<P> {
    /// Where the first row of a branch stands on the first axis.
    pub(crate) fn first_of(&self, branch: &Branch) -> Tumbler
        requires part { IsWellFormedPart P.widths self.now branch.now }
        ensures value { result ≡ first_coordinate (branch_rows (rows_table self.now) branch.now) }
        ensures some { branch_rows (rows_table self.now) branch.now ≢ [] }
        ensures ordered { InOrder (branch_rows (rows_table self.now) branch.now) }
    {
        let summary = self.summary(branch.node);
        branch.first.add(&summary.first)
    }

    /// Whether a branch has a row before a coordinate. It looks at the branch's node only where it has to.
    pub(crate) fn starts_before(&self, branch: &Branch, at: &Tumbler) -> bool
        requires part { IsWellFormedPart P.widths self.now branch.now }
        ensures value { result ≡ comes_before (first_coordinate (branch_rows (rows_table self.now) branch.now)) at.now }
        ensures some { branch_rows (rows_table self.now) branch.now ≢ [] }
        ensures ordered { InOrder (branch_rows (rows_table self.now) branch.now) }
    {
        nodes_are_well_formed(self);
        if !branch.first.is_before(at) {
            return false;
        }
        self.first_of(branch).is_before(at)
    }

    /// Where the last row of a branch stands on the first axis.
    pub(crate) fn last_of(&self, branch: &Branch) -> Tumbler
        requires part { IsWellFormedPart P.widths self.now branch.now }
        ensures value { result ≡ last_coordinate (branch_rows (rows_table self.now) branch.now) }
        ensures some { branch_rows (rows_table self.now) branch.now ≢ [] }
        ensures ordered { InOrder (branch_rows (rows_table self.now) branch.now) }
    {
        let summary = self.summary(branch.node);
        branch.first.add(&summary.last)
    }

    /// Where the rows of a branch stand, beside a gap: by its origin, its first and its last row.
    pub(crate) fn beside(&self, branch: &Branch, gap: &Gap) -> Beside
        requires part { IsWellFormedPart P.widths self.now branch.now }
        ensures { IsBeside gap.now (branch_rows (rows_table self.now) branch.now) result }
    {
        if !self.starts_before(branch, &gap.to) {
            return Beside::Past;
        }
        let last = self.last_of(branch);
        if last.is_before(&gap.from) {
            return Beside::Before;
        }
        let first = self.first_of(branch);
        if first.is_before(&gap.from) {
            return Beside::Across;
        }
        if last.is_before(&gap.to) {
            return Beside::Within;
        }
        Beside::Across
    }

    /// The branch with all its rows moved as those behind a gap are, by its displacement alone.
    ///
    /// Its origin has to be behind the gap, and the rows are well formed where they come to stand. No origin below
    /// comes after the last row, so those fit there too where that row's lead covers the branch's new origin.
    /// Else there is none, and the branch has to be taken apart.
    pub(crate) fn moved_whole(&self, branch: &Branch, gap: &Gap) -> Option<Branch>
        requires part { IsWellFormedPart P.widths self.now branch.now }
        requires rows { All (IsWellFormedRow P.widths) (shifted gap.now.to gap.now.onto (branch_rows (rows_table self.now) branch.now)) }
        requires past { IsBeside gap.now (branch_rows (rows_table self.now) branch.now) AllPast }
        ensures { IfSome result (λ made. BranchHasRows P.widths self.now (height_of P.widths self.now branch.now.node.0) (shifted gap.now.to gap.now.onto (branch_rows (rows_table self.now) branch.now)) made) }
    {
        if branch.first.is_before(&gap.to) {
            return None;
        }
        let ahead = branch.first.minus(&gap.to);
        if !gap.onto.fits(&ahead) {
            return None;
        }
        let first = gap.onto.add(&ahead);
        let summary = self.summary(branch.node);
        if !first.is_covered(&summary.last) {
            return None;
        }
        Some(Branch { first, ..*branch })
    }
}
