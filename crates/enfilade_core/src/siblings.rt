//! Children of a node behind a gap, moved in it by their displacements alone, as the node sees them.
ghost use Rattle.std.specs.Prelude.{◌≡◌, ◌<◌, ◌≤◌, ◌++◌, map, drop, length, All, IsTrue, false, IfOk, IfSome};
ghost use Rattle.tumbler.specs.Places.{comes_before, sum};
ghost use Rattle.enfilade_core.specs.Rows.{Branches, branch_rows, rows_in, rows_table};
ghost use Rattle.enfilade_core.specs.Axes.{IsWellFormedRow};
ghost use Rattle.enfilade_core.specs.WellFormed.{IsWellFormed, IsWellFormedPart};
ghost use Rattle.enfilade_core.specs.Edits.{shifted};
ghost use Rattle.enfilade_core.specs.Exchange.{rows_past};
ghost use Rattle.enfilade_core.specs.Touched.{branches_at, EndsBoth, StandPast, MayMoveSeen, MovesSeen, seen_moved, IsRest, IsBehind};

use crate::arena::Arena;
use crate::check_children::is_same;
use crate::gap::Gap;
use crate::plane::Plane;
use crate::rebuild_node::{append_branches, seen_from};
use crate::tree::Branch;
use tumbler::laws::is_tumbler;
use tumbler::{List, Memory, Tumbler};

/// Children of a node that an exchange leaves or moves as a whole, as the node sees them then.
#[derive(Drop)]
pub struct Behind {
    /// The number of the first of them.
    pub behind: usize,
    pub rest: List<Branch>,
}

/// How many branches in front have their origins before a coordinate, where a gap moves what is behind it: those
/// do not move as a whole.
fn origins_in_front(branches: &[Branch], at: &Tumbler, gap: &Gap) -> usize
    ensures { result ≤ length branches.now }
{
    if is_same(&gap.to, &gap.onto) {
        return 0;
    }
    let mut k = 0;
    for branch in branches {
        if !branch.first.is_before(at) {
            return k;
        }
        k += 1;
    }
    k
}

impl<P: Plane> Arena<P> {
    /// A child behind a gap, moved with the gap's end by its displacement alone, if all below it fits there. Its node sees
    /// that end at `to` before, and at `onto` after.
    fn moved_seen(
        &self,
        branch: &Branch,
        first: &Tumbler,
        second: &Tumbler,
        to: &Tumbler,
        onto: &Tumbler,
    ) -> Option<Branch>
        requires { MayMoveSeen P.widths self.now first.now second.now to.now onto.now branch.now }
        ensures is { IfSome result (λ made. made ≡ seen_moved to.now onto.now branch.now) }
        ensures moves { IfSome result (λ made. MovesSeen P.widths self.now first.now second.now to.now onto.now branch.now) }
    {
        if branch.first.is_before(to) {
            return None;
        }
        let ahead = branch.first.minus(to);
        if !onto.fits(&ahead) {
            return None;
        }
        let seen = onto.add(&ahead);
        if !first.fits(&seen) {
            return None;
        }
        let there = first.add(&seen);
        is_tumbler(&seen);
        let summary = self.summary(branch.node);
        if !there.is_covered(&summary.last) {
            return None;
        }
        Some(Branch {
            first: seen,
            ..*branch
        })
    }

    /// Children go behind others, each moved so. It stops at the first that cannot be.
    fn append_seen(
        &self,
        branches: &[Branch],
        first: &Tumbler,
        second: &Tumbler,
        to: &Tumbler,
        onto: &Tumbler,
        made: &mut List<Branch>,
    ) -> Result<bool, Memory>
        requires { All (MayMoveSeen P.widths self.now first.now second.now to.now onto.now) branches.now }
        ensures are { IfOk result (λ all. IsTrue all → made.new.items ≡ made.old.items ++ map (seen_moved to.now onto.now) branches.now) }
        ensures moves { IfOk result (λ all. IsTrue all → All (MovesSeen P.widths self.now first.now second.now to.now onto.now) branches.now) }
    {
        for branch in branches {
            let Some(moved) = self.moved_seen(branch, first, second, to, onto) else {
                return Ok(false);
            };
            made.push(moved)?;
        }
        Ok(true)
    }

    /// Children that stand behind a gap, as their node sees them where they come to stand, if each moves as a
    /// whole and none to a coordinate before the node's origin.
    fn rest_seen(
        &self,
        branches: &[Branch],
        first: &Tumbler,
        second: &Tumbler,
        gap: &Gap,
    ) -> Result<Option<List<Branch>>, Memory>
        requires parts { All (IsWellFormedPart P.widths self.now) (branches_at first.now second.now branches.now) }
        requires ends { All EndsBoth branches.now }
        requires past { All (λ row. comes_before row.first gap.now.to ≡ false) (rows_in (rows_table self.now) (Branches (branches_at first.now second.now branches.now))) }
        requires rows { All (IsWellFormedRow P.widths) (shifted gap.now.to gap.now.onto (rows_in (rows_table self.now) (Branches (branches_at first.now second.now branches.now)))) }
        ensures { IfOk result (λ found. IfSome found (λ rest. IsRest P.widths self.now gap.now first.now second.now (branches_at first.now second.now branches.now) rest.items)) }
    {
        let mut made = List::new(self.allocator());
        made.reserve(branches.len())?;
        if is_same(&gap.to, &gap.onto) {
            append_branches(branches, &mut made)?;
            return Ok(Some(made));
        }
        if gap.to.is_before(first) {
            return Ok(None);
        }
        if gap.onto.is_before(first) {
            return Ok(None);
        }
        let to = gap.to.minus(first);
        let onto = gap.onto.minus(first);
        let all = self.append_seen(branches, first, second, &to, &onto, &mut made)?;
        if !all {
            return Ok(None);
        }
        Ok(Some(made))
    }

    /// The number behind the last branch that an exchange has to open, where `front` is that of the first: those
    /// from there on stand behind the gap.
    fn touched_up_to(&self, branches: &[Branch], front: usize, base: &Tumbler, gap: &Gap) -> usize
        requires well_formed { IsWellFormed P.widths self.now (Branches branches.now) }
        requires there { front < length branches.now }
        ensures some { front < result }
        ensures short { result ≤ length branches.now }
        ensures past { StandPast self.now gap.now.to base.now (drop result branches.now) }
    {
        let (_, rest) = branches.split_at(front);
        let to = seen_from(&gap.to, base);
        let up_to = front + self.chosen(rest, &to) + 1;
        let (_, past) = branches.split_at(up_to);
        up_to + origins_in_front(past, &to, gap)
    }

    /// The children that an exchange need not open, from behind the last that it may touch. There are none where
    /// one of them cannot move as a whole.
    pub(crate) fn behind(
        &self,
        branches: &[Branch],
        front: usize,
        first: &Tumbler,
        second: &Tumbler,
        gap: &Gap,
    ) -> Result<Behind, Memory>
        requires well_formed { IsWellFormed P.widths self.now (Branches branches.now) }
        requires opened { IsWellFormed P.widths self.now (Branches (branches_at first.now second.now branches.now)) }
        requires there { front < length branches.now }
        requires rows { All (IsWellFormedRow P.widths) (shifted gap.now.to gap.now.onto (rows_past gap.now.to (rows_in (rows_table self.now) (Branches (branches_at first.now second.now branches.now))))) }
        ensures { IfOk result (λ made. IsBehind P.widths self.now gap.now first.now second.now (branches_at first.now second.now branches.now) front made.behind made.rest.items) }
    {
        let behind = self.touched_up_to(branches, front, first, gap);
        let (_, past) = branches.split_at(behind);
        let found = self.rest_seen(past, first, second, gap)?;
        match found {
            Some(rest) => Ok(Behind { behind, rest }),
            None => Ok(Behind {
                behind: branches.len(),
                rest: List::new(self.allocator()),
            }),
        }
    }
}
