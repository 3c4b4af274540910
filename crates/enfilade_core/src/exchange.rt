//! What stands in a gap of a tree is exchanged.
ghost use Rattle.std.specs.Prelude.{ℕ, List as ListOf, ◌≡◌, ◌≢◌, ◌⊎◌, ◌+◌, ◌<◌, ◌≤◌, [], ◌∷◌, ◌++◌, map, drop, take, length, All, IsTrue, IfOk, IfSome, IfNone, OnOk, false, true};
ghost use Rattle.tumbler.specs.Places.{IsUpTo, IsTumbler, comes_before};
ghost use Rattle.enfilade_core.specs.Rows.{Rows, Branches, moved, branch_rows, rows_in, rows_table, rows_of, node_at, IsInner, IsBottom, branches_under};
ghost use Rattle.enfilade_core.specs.Touched.{branches_at, with_middle, LiesWithin};
ghost use Rattle.enfilade_core.specs.Axes.{IsWellFormedRow, IsWellFormedRows, InOrder};
ghost use Rattle.enfilade_core.specs.WellFormed.{IsWellFormed, IsWellFormedPart, NamesBelow};
ghost use Rattle.enfilade_core.specs.Summary.{height_of};
ghost use Rattle.enfilade_core.specs.Plain.{shape, plain_row};
ghost use Rattle.enfilade_core.specs.Following.{first_coordinate};
ghost use Rattle.enfilade_core.specs.Edits.{taken_out, shift_coordinate, shift_row, shifted, is_within, KeepsRows};
ghost use Rattle.enfilade_core.specs.Exchange.{exchanged, rows_before, rows_past, IsWellFormedAt, height_in, Grows, HasRows, BranchesHaveRows, MayHaveRows, MayHaveChildren, BranchHasRows, IsBeside, IsChosen, branches_if, IsWhole, LevelRows, AppendsRows};

use crate::arena::Arena;
use crate::compare_gap::Beside;
use crate::gap::Gap;
use crate::laws::nodes_are_well_formed;
use crate::plane::Plane;
use crate::rebuild_node::Touched;
use crate::tree::{Branch, Children, Node, Row};
use std::alloc::Global;
use tumbler::{List, Memory, Tumbler};

/// A branch after an exchange whose new rows come in elsewhere.
#[derive(Drop)]
enum Whole {
    /// All its rows stand before the gap, in it or behind it, so that the branch is kept, taken out or moved as a whole.
    Left(Option<Branch>),
    /// Its node has to be opened.
    Parts,
}

/// How many rows come before a coordinate.
pub(crate) fn count_before<L>(rows: &[Row<L>], at: &Tumbler) -> usize
    requires { InOrder rows.now }
    ensures { result ≡ length (rows_before at.now rows.now) }
{
    rows.partition_point(|row| row.first.is_before(at))
}

/// Copies of rows go behind others.
pub(crate) fn append_copies<P: Plane>(
    alloc: Global,
    rows: &[Row<P::Leaf>],
    into: &mut List<Row<P::Leaf>>,
) -> Result<(), Memory>
    ensures { OnOk result (map (plain_row P.plain) into.new.items ≡ map (plain_row P.plain) into.old.items ++ map (plain_row P.plain) rows.now) }
{
    for row in rows {
        into.push(Row {
            first: row.first.copy(),
            second: row.second.copy(),
            leaf: P::copy_leaf(alloc, &row.leaf)?,
        })?;
    }
    Ok(())
}

/// A row behind a gap, where it comes to stand.
fn row_shifted<P: Plane>(
    alloc: Global,
    row: &Row<P::Leaf>,
    gap: &Gap,
) -> Result<Row<P::Leaf>, Memory>
    requires past { comes_before row.now.first gap.now.to ≡ false }
    requires well_formed { IsTumbler (shift_coordinate gap.now.to gap.now.onto row.now.first) }
    ensures { IfOk result (λ made. plain_row P.plain made ≡ shift_row gap.now.to gap.now.onto (plain_row P.plain row.now)) }
{
    let distance = row.first.minus(&gap.to);
    Ok(Row {
        first: gap.onto.add(&distance),
        second: row.second.copy(),
        leaf: P::copy_leaf(alloc, &row.leaf)?,
    })
}

/// Rows behind a gap go behind others, where they come to stand.
fn append_shifted<P: Plane>(
    alloc: Global,
    rows: &[Row<P::Leaf>],
    gap: &Gap,
    into: &mut List<Row<P::Leaf>>,
) -> Result<(), Memory>
    requires past { All (λ row. comes_before row.first gap.now.to ≡ false) (map (plain_row P.plain) rows.now) }
    requires well_formed { All (IsWellFormedRow P.widths) (shifted gap.now.to gap.now.onto (map (plain_row P.plain) rows.now)) }
    ensures { OnOk result (map (plain_row P.plain) into.new.items ≡ map (plain_row P.plain) into.old.items ++ shifted gap.now.to gap.now.onto (map (plain_row P.plain) rows.now)) }
{
    for row in rows {
        into.push(row_shifted::<P>(alloc, row, gap)?)?;
    }
    Ok(())
}

/// Rows of a bottom node, with those in the gap exchanged. What was taken out goes behind `out`.
pub(crate) fn rows_exchanged<P: Plane>(
    alloc: Global,
    old: &[Row<P::Leaf>],
    gap: &Gap,
    rows: &[Row<P::Leaf>],
    out: &mut List<Row<P::Leaf>>,
) -> Result<List<Row<P::Leaf>>, Memory>
    requires up_to { IsUpTo gap.now.from gap.now.to }
    requires old_well_formed { IsWellFormedRows P.widths (map (plain_row P.plain) old.now) }
    requires well_formed { All (IsWellFormedRow P.widths) (exchanged gap.now (map (plain_row P.plain) rows.now) (map (plain_row P.plain) old.now)) }
    ensures rows { IfOk result (λ made. map (plain_row P.plain) made.items ≡ exchanged gap.now (map (plain_row P.plain) rows.now) (map (plain_row P.plain) old.now)) }
    ensures out { OnOk result (map (plain_row P.plain) out.new.items ≡ map (plain_row P.plain) out.old.items ++ taken_out gap.now.from gap.now.to (map (plain_row P.plain) old.now)) }
{
    let (before, _) = old.split_at(count_before(old, &gap.from));
    let (up_to, past) = old.split_at(count_before(old, &gap.to));
    let (_, within) = up_to.split_at(before.len());
    let mut made = List::new(alloc);
    made.reserve(old.len().saturating_add(rows.len()))?;
    append_copies::<P>(alloc, before, &mut made)?;
    append_copies::<P>(alloc, rows, &mut made)?;
    append_copies::<P>(alloc, within, out)?;
    append_shifted::<P>(alloc, past, gap, &mut made)?;
    Ok(made)
}

/// Copies of branches, in a list with room for so many in all.
fn branches_copied(alloc: Global, branches: &[Branch], room: usize) -> Result<List<Branch>, Memory>
    ensures { IfOk result (λ made. made.items ≡ branches.now) }
{
    let mut made = List::new(alloc);
    made.reserve(room)?;
    made.extend_from_slice(branches)?;
    Ok(made)
}

/// A branch, if there is one, goes behind others.
fn append_branch(branch: Option<Branch>, into: &mut List<Branch>) -> Result<(), Memory>
    ensures { OnOk result (into.new.items ≡ into.old.items ++ branches_if branch) }
{
    match branch {
        Some(branch) => into.push(branch),
        None => Ok(()),
    }
}

impl<P: Plane> Arena<P> {
    /// The last branch that has a row before a coordinate, or the first one: new rows go in there.
    ///
    /// It is mostly the last one whose origin comes before the coordinate, so that one node is looked at.
    pub(crate) fn chosen(&self, branches: &[Branch], at: &Tumbler) -> usize
        requires well_formed { IsWellFormed P.widths self.now (Branches branches.now) }
        ensures is { IsChosen self.now branches.now at.now result }
        ensures here { (result ≡ 0) ⊎ (comes_before (first_coordinate (rows_in (rows_table self.now) (Branches (drop result branches.now)))) at.now ≡ true) }
    {
        let end = self.none_from(branches, at);
        let last = end - 1;
        if last == 0 {
            return 0;
        }
        if self.starts_before(&branches[last], at) {
            return last;
        }
        self.chosen_in_front(branches, last, at)
    }

    /// A number from which on no row comes before a coordinate, told by the branches' origins alone: no row of a
    /// branch comes before its origin. The origins need not be in order, so an earlier number may do too.
    fn none_from(&self, branches: &[Branch], at: &Tumbler) -> usize
        requires well_formed { IsWellFormed P.widths self.now (Branches branches.now) }
        ensures some { 0 < result }
        ensures short { result ≤ length branches.now }
        ensures back { All (λ row. comes_before row.first at.now ≡ false) (rows_in (rows_table self.now) (Branches (drop result branches.now))) }
    {
        nodes_are_well_formed(self);
        let mut near = 0;
        let mut far = branches.len();
        while near + 1 < far {
            let middle = near + (far - near) / 2;
            if branches[middle].first.is_before(at) {
                near = middle;
            } else {
                far = middle;
            }
        }
        far
    }

    /// The branch that `chosen` finds, in front of a number from which on no row comes before the coordinate. It
    /// looks at nodes of branches, where `none_from` does not.
    fn chosen_in_front(&self, branches: &[Branch], end: usize, at: &Tumbler) -> usize
        requires well_formed { IsWellFormed P.widths self.now (Branches branches.now) }
        requires some { 0 < end }
        requires short { end ≤ length branches.now }
        requires back { All (λ row. comes_before row.first at.now ≡ false) (rows_in (rows_table self.now) (Branches (drop end branches.now))) }
        ensures is { IsChosen self.now branches.now at.now result }
        ensures here { (result ≡ 0) ⊎ (comes_before (first_coordinate (rows_in (rows_table self.now) (Branches (drop result branches.now)))) at.now ≡ true) }
    {
        let mut low = 0;
        let mut high = end;
        while low + 1 < high {
            let middle = low + (high - low) / 2;
            if self.starts_before(&branches[middle], at) {
                low = middle;
            } else {
                high = middle;
            }
        }
        low
    }

    /// What comes of a branch as a whole, by where its rows stand beside a gap.
    fn whole_exchanged(
        &self,
        branch: &Branch,
        gap: &Gap,
        out: &mut List<Row<P::Leaf>>,
    ) -> Result<Whole, Memory>
        requires up_to { IsUpTo gap.now.from gap.now.to }
        requires part { IsWellFormedPart P.widths self.now branch.now }
        requires well_formed { IsWellFormedRows P.widths (exchanged gap.now [] (branch_rows (rows_table self.now) branch.now)) }
        ensures { IfOk result (IsWhole P.widths self.now branch.now gap.now (map (plain_row P.plain) out.old.items) (map (plain_row P.plain) out.new.items)) }
    {
        match self.beside(branch, gap) {
            Beside::Before => Ok(Whole::Left(Some(branch.copy()))),
            Beside::Within => {
                self.append_rows(branch.node, &branch.first, &branch.second, out)?;
                Ok(Whole::Left(None))
            }
            Beside::Past => match self.moved_whole(branch, gap) {
                Some(moved) => Ok(Whole::Left(Some(moved))),
                None => Ok(Whole::Parts),
            },
            Beside::Across => Ok(Whole::Parts),
        }
    }

    /// A branch, with what stands in a gap exchanged, if any row is left.
    #[cycle(exchanging)]
    fn branch_exchanged(
        &mut self,
        branch: &Branch,
        gap: &Gap,
        rows: &[Row<P::Leaf>],
        out: &mut List<Row<P::Leaf>>,
    ) -> Result<Option<Branch>, Memory>
        requires up_to { IsUpTo gap.now.from gap.now.to }
        requires part { IsWellFormedPart P.widths self.old branch.now }
        requires well_formed { IsWellFormedRows P.widths (exchanged gap.now (map (plain_row P.plain) rows.now) (branch_rows (rows_table self.old) branch.now)) }
        ensures grows { Grows self.old self.new }
        ensures rows { IfOk result (MayHaveRows P.widths self.new (height_of P.widths self.old branch.now.node.0) (exchanged gap.now (map (plain_row P.plain) rows.now) (branch_rows (rows_table self.old) branch.now))) }
        ensures out { OnOk result (map (plain_row P.plain) out.new.items ≡ map (plain_row P.plain) out.old.items ++ taken_out gap.now.from gap.now.to (branch_rows (rows_table self.old) branch.now)) }
    {
        if !rows.is_empty() {
            return self.parts_exchanged(branch, gap, rows, out);
        }
        let whole = self.whole_exchanged(branch, gap, out)?;
        match whole {
            Whole::Left(left) => Ok(left),
            Whole::Parts => self.parts_exchanged(branch, gap, rows, out),
        }
    }

    /// A branch, with what stands in a gap exchanged, if any row is left, where its node has to be opened.
    #[cycle(exchanging)]
    fn parts_exchanged(
        &mut self,
        branch: &Branch,
        gap: &Gap,
        rows: &[Row<P::Leaf>],
        out: &mut List<Row<P::Leaf>>,
    ) -> Result<Option<Branch>, Memory>
        requires up_to { IsUpTo gap.now.from gap.now.to }
        requires part { IsWellFormedPart P.widths self.old branch.now }
        requires well_formed { IsWellFormedRows P.widths (exchanged gap.now (map (plain_row P.plain) rows.now) (branch_rows (rows_table self.old) branch.now)) }
        ensures grows { Grows self.old self.new }
        ensures rows { IfOk result (MayHaveRows P.widths self.new (height_of P.widths self.old branch.now.node.0) (exchanged gap.now (map (plain_row P.plain) rows.now) (branch_rows (rows_table self.old) branch.now))) }
        ensures out { OnOk result (map (plain_row P.plain) out.new.items ≡ map (plain_row P.plain) out.old.items ++ taken_out gap.now.from gap.now.to (branch_rows (rows_table self.old) branch.now)) }
    {
        if self.is_bottom(branch.node) {
            return self.bottom_exchanged(branch, gap, rows, out);
        }
        let touched = self.node_exchanged(
            branch.node,
            &branch.first,
            &branch.second,
            gap,
            rows,
            out,
        )?;
        self.repacked(branch, &touched)
    }

    /// The branches, each with what stands in a gap taken out and what is behind it moved, go behind others.
    #[cycle(exchanging)]
    fn rest_exchanged(
        &mut self,
        below: Node,
        branches: &[Branch],
        gap: &Gap,
        made: &mut List<Branch>,
        out: &mut List<Row<P::Leaf>>,
    ) -> Result<(), Memory>
        requires up_to { IsUpTo gap.now.from gap.now.to }
        requires named { All (λ branch. branch.node.0 < below.0) branches.now }
        requires parts { All (IsWellFormedPart P.widths self.old) branches.now }
        requires past { All (λ row. comes_before row.first gap.now.from ≡ false) (rows_in (rows_table self.old) (Branches branches.now)) }
        requires well_formed { IsWellFormedRows P.widths (exchanged gap.now [] (rows_in (rows_table self.old) (Branches branches.now))) }
        ensures grows { Grows self.old self.new }
        ensures rows { OnOk result (AppendsRows P.widths self.old self.new branches.now (exchanged gap.now [] (rows_in (rows_table self.old) (Branches branches.now))) made.old.items made.new.items) }
        ensures out { OnOk result (map (plain_row P.plain) out.new.items ≡ map (plain_row P.plain) out.old.items ++ taken_out gap.now.from gap.now.to (rows_in (rows_table self.old) (Branches branches.now))) }
    {
        let none: List<Row<P::Leaf>> = List::new(self.allocator());
        for branch in branches {
            let branch = self.branch_exchanged(branch, gap, none.as_slice(), out)?;
            append_branch(branch, made)?;
        }
        Ok(())
    }

    /// The branches of a node, with what stands in a gap exchanged.
    #[cycle(exchanging)]
    fn branches_exchanged(
        &mut self,
        below: Node,
        branches: &[Branch],
        gap: &Gap,
        rows: &[Row<P::Leaf>],
        out: &mut List<Row<P::Leaf>>,
    ) -> Result<List<Branch>, Memory>
        requires up_to { IsUpTo gap.now.from gap.now.to }
        requires named { All (λ branch. branch.node.0 < below.0) branches.now }
        requires node { IsWellFormed P.widths self.old (Branches branches.now) }
        requires well_formed { IsWellFormedRows P.widths (exchanged gap.now (map (plain_row P.plain) rows.now) (rows_in (rows_table self.old) (Branches branches.now))) }
        ensures grows { Grows self.old self.new }
        ensures rows { IfOk result (λ made. LevelRows P.widths self.old self.new branches.now (exchanged gap.now (map (plain_row P.plain) rows.now) (rows_in (rows_table self.old) (Branches branches.now))) made.items) }
        ensures out { OnOk result (map (plain_row P.plain) out.new.items ≡ map (plain_row P.plain) out.old.items ++ taken_out gap.now.from gap.now.to (rows_in (rows_table self.old) (Branches branches.now))) }
    {
        let at = self.chosen(branches, &gap.from);
        let (front, _) = branches.split_at(at);
        let (_, rest) = branches.split_at(at + 1);
        let mut made = branches_copied(self.allocator(), front, branches.len())?;
        let branch = self.branch_exchanged(&branches[at], gap, rows, out)?;
        append_branch(branch, &mut made)?;
        self.rest_exchanged(below, rest, gap, &mut made, out)?;
        Ok(made)
    }

    /// The same of a lone branch. What comes of it takes its place in the list, so that no other list is made.
    #[cycle(exchanging)]
    fn lone_exchanged(
        &mut self,
        below: Node,
        branches: List<Branch>,
        gap: &Gap,
        rows: &[Row<P::Leaf>],
        out: &mut List<Row<P::Leaf>>,
    ) -> Result<List<Branch>, Memory>
        requires up_to { IsUpTo gap.now.from gap.now.to }
        requires lone { length branches.items ≡ 1 }
        requires named { All (λ branch. branch.node.0 < below.0) branches.items }
        requires node { IsWellFormed P.widths self.old (Branches branches.items) }
        requires well_formed { IsWellFormedRows P.widths (exchanged gap.now (map (plain_row P.plain) rows.now) (rows_in (rows_table self.old) (Branches branches.items))) }
        ensures grows { Grows self.old self.new }
        ensures rows { IfOk result (λ made. LevelRows P.widths self.old self.new branches.items (exchanged gap.now (map (plain_row P.plain) rows.now) (rows_in (rows_table self.old) (Branches branches.items))) made.items) }
        ensures out { OnOk result (map (plain_row P.plain) out.new.items ≡ map (plain_row P.plain) out.old.items ++ taken_out gap.now.from gap.now.to (rows_in (rows_table self.old) (Branches branches.items))) }
    {
        let mut made = branches;
        let branch = made.as_slice()[0].copy();
        let left = self.branch_exchanged(&branch, gap, rows, out)?;
        made.truncate(0);
        append_branch(left, &mut made)?;
        Ok(made)
    }

    /// The branches of a node that an exchange touches, mostly one, with what stands in a gap exchanged.
    #[cycle(exchanging)]
    fn middle_exchanged(
        &mut self,
        below: Node,
        branches: List<Branch>,
        gap: &Gap,
        rows: &[Row<P::Leaf>],
        out: &mut List<Row<P::Leaf>>,
    ) -> Result<List<Branch>, Memory>
        requires up_to { IsUpTo gap.now.from gap.now.to }
        requires named { All (λ branch. branch.node.0 < below.0) branches.items }
        requires node { IsWellFormed P.widths self.old (Branches branches.items) }
        requires well_formed { IsWellFormedRows P.widths (exchanged gap.now (map (plain_row P.plain) rows.now) (rows_in (rows_table self.old) (Branches branches.items))) }
        ensures grows { Grows self.old self.new }
        ensures rows { IfOk result (λ made. LevelRows P.widths self.old self.new branches.items (exchanged gap.now (map (plain_row P.plain) rows.now) (rows_in (rows_table self.old) (Branches branches.items))) made.items) }
        ensures out { OnOk result (map (plain_row P.plain) out.new.items ≡ map (plain_row P.plain) out.old.items ++ taken_out gap.now.from gap.now.to (rows_in (rows_table self.old) (Branches branches.items))) }
    {
        if branches.len() == 1 {
            return self.lone_exchanged(below, branches, gap, rows, out);
        }
        self.branches_exchanged(below, branches.as_slice(), gap, rows, out)
    }

    /// The children of an inner node that an exchange touches, seen from a base, with what stands in a gap
    /// exchanged. There may be none left.
    #[cycle(exchanging)]
    fn node_exchanged(
        &mut self,
        node: Node,
        first: &Tumbler,
        second: &Tumbler,
        gap: &Gap,
        rows: &[Row<P::Leaf>],
        out: &mut List<Row<P::Leaf>>,
    ) -> Result<Touched, Memory>
        requires up_to { IsUpTo gap.now.from gap.now.to }
        requires at { IsWellFormedAt P.widths self.old node.0 first.now second.now }
        requires inner { IsInner (node_at self.old node.0) }
        requires well_formed { IsWellFormedRows P.widths (exchanged gap.now (map (plain_row P.plain) rows.now) (map (moved first.now second.now) (rows_of self.old node.0))) }
        ensures grows { Grows self.old self.new }
        ensures same { node_at self.new node.0 ≡ node_at self.old node.0 }
        ensures within { IfOk result (λ made. LiesWithin first.now second.now (branches_under (node_at self.old node.0)) made) }
        ensures rows { IfOk result (λ made. MayHaveChildren P.widths self.new (height_of P.widths self.old node.0) (exchanged gap.now (map (plain_row P.plain) rows.now) (map (moved first.now second.now) (rows_of self.old node.0))) (Branches (with_middle first.now second.now (branches_at first.now second.now (branches_under (node_at self.old node.0))) made))) }
        ensures out { OnOk result (map (plain_row P.plain) out.new.items ≡ map (plain_row P.plain) out.old.items ++ taken_out gap.now.from gap.now.to (map (moved first.now second.now) (rows_of self.old node.0))) }
    {
        nodes_are_well_formed(self);
        let touched = self.touched(node, first, second, gap)?;
        let Touched {
            front,
            behind,
            branches: middle,
            rest,
        } = touched;
        let branches = self.middle_exchanged(node, middle, gap, rows, out)?;
        Ok(Touched {
            front,
            behind,
            branches,
            rest,
        })
    }

    /// The children of a root, with what stands in a gap exchanged. An inner root may have none left.
    pub(crate) fn root_exchanged(
        &mut self,
        root: Node,
        gap: &Gap,
        rows: &[Row<P::Leaf>],
        out: &mut List<Row<P::Leaf>>,
    ) -> Result<Children<P::Leaf>, Memory>
        requires below { root.0 < length self.old }
        requires up_to { IsUpTo gap.now.from gap.now.to }
        requires well_formed { IsWellFormedRows P.widths (exchanged gap.now (map (plain_row P.plain) rows.now) (rows_of self.old root.0)) }
        ensures grows { Grows self.old self.new }
        ensures rows { IfOk result (λ made. MayHaveChildren P.widths self.new (height_of P.widths self.old root.0) (exchanged gap.now (map (plain_row P.plain) rows.now) (rows_of self.old root.0)) (shape P.plain made)) }
        ensures out { OnOk result (map (plain_row P.plain) out.new.items ≡ map (plain_row P.plain) out.old.items ++ taken_out gap.now.from gap.now.to (rows_of self.old root.0)) }
    {
        let alloc = self.allocator();
        if self.is_bottom(root) {
            let made = rows_exchanged::<P>(alloc, self.rows_under(root), gap, rows, out)?;
            return Ok(Children::Bottom(made));
        }
        let zero = Tumbler::zero(alloc);
        let touched = self.node_exchanged(root, &zero, &zero, gap, rows, out)?;
        let made = self.around(root, &zero, &zero, &touched)?;
        Ok(Children::Inner(made))
    }
}
