//! A new node for children, with an origin of its own.
ghost use Rattle.std.specs.Prelude.{◌≡◌, ◌≢◌, [], map, All, IfOk};
ghost use Rattle.tumbler.specs.Places.{IsTumbler, IsUpTo};
ghost use Rattle.tumbler.specs.Laws.{StandsBefore};
ghost use Rattle.enfilade_core.specs.Rows.{Rows, Branches, rows_in, rows_table};
ghost use Rattle.enfilade_core.specs.Axes.{IsWellFormedRows};
ghost use Rattle.enfilade_core.specs.WellFormed.{IsWellFormed};
ghost use Rattle.enfilade_core.specs.Plain.{shape, plain_row};
ghost use Rattle.enfilade_core.specs.Exchange.{IsPacked, Grows};
ghost use Rattle.enfilade_core.specs.Packing.{back, branch_back, MayStandAt, IsPlaced};
ghost use Rattle.enfilade_core.specs.BalanceState.{balance_states, balance_state_in, balance_state_below, balance_state_of};

use crate::arena::Arena;
use crate::plane::Plane;
use crate::tree::{Branch, Children, Row};
use std::alloc::Global;
use tumbler::laws::is_tumbler;
use tumbler::{List, Memory, Tumbler};

/// The one of two places that comes first.
#[tactic(auto, using(crate::proofs::PackedOrigins::lesser_place))]
fn lesser(a: &Tumbler, b: &Tumbler) -> Tumbler
    ensures first { IsUpTo result a.now }
    ensures second { IsUpTo result b.now }
{
    if a.is_before(b) { a.copy() } else { b.copy() }
}

/// A coordinate on the first axis that is before those of all rows, but for zero.
fn first_before<P: Plane>(rows: &[Row<P::Leaf>]) -> Tumbler
    requires well_formed { IsWellFormedRows P.widths (map (plain_row P.plain) rows.now) }
    requires some { rows.now ≢ [] }
    ensures { All (λ row. StandsBefore result row.first) (map (plain_row P.plain) rows.now) }
{
    rows[0].first.just_before()
}

/// A coordinate on the second axis that is before those of all rows, but for zero.
fn second_before<P: Plane>(rows: &[Row<P::Leaf>]) -> Tumbler
    requires some { rows.now ≢ [] }
    ensures { All (λ row. StandsBefore result row.second) (map (plain_row P.plain) rows.now) }
{
    let mut least = rows[0].second.copy();
    for row in rows {
        least = lesser(&least, &row.second);
    }
    is_tumbler(&least);
    least.just_before()
}

/// The least of the branches' origins on the first axis.
fn first_least(branches: &[Branch]) -> Tumbler
    requires some { branches.now ≢ [] }
    ensures up_to { All (λ branch. IsUpTo result branch.first) branches.now }
    ensures tumbler { IsTumbler result }
{
    let mut least = branches[0].first.copy();
    for branch in branches {
        least = lesser(&least, &branch.first);
    }
    is_tumbler(&least);
    least
}

/// The least of the branches' origins on the second axis.
fn second_least(branches: &[Branch]) -> Tumbler
    requires some { branches.now ≢ [] }
    ensures up_to { All (λ branch. IsUpTo result branch.second) branches.now }
    ensures tumbler { IsTumbler result }
{
    let mut least = branches[0].second.copy();
    for branch in branches {
        least = lesser(&least, &branch.second);
    }
    is_tumbler(&least);
    least
}

/// A row, as it is seen from an origin.
pub(crate) fn row_back<P: Plane>(
    alloc: Global,
    row: &Row<P::Leaf>,
    first: &Tumbler,
    second: &Tumbler,
) -> Result<Row<P::Leaf>, Memory>
    requires first_up_to { IsUpTo first.now row.now.first }
    requires second_up_to { IsUpTo second.now row.now.second }
    ensures { IfOk result (λ made. plain_row P.plain made ≡ back first.now second.now (plain_row P.plain row.now)) }
{
    Ok(Row {
        first: row.first.minus(first),
        second: row.second.minus(second),
        leaf: P::copy_leaf(alloc, &row.leaf)?,
    })
}

/// A branch, as it is seen from an origin.
pub(crate) fn branch_back(branch: &Branch, first: &Tumbler, second: &Tumbler) -> Branch
    requires first_up_to { IsUpTo first.now branch.now.first }
    requires second_up_to { IsUpTo second.now branch.now.second }
    ensures { result ≡ branch_back first.now second.now branch.now }
{
    Branch {
        node: branch.node,
        first: branch.first.minus(first),
        second: branch.second.minus(second),
        first_extent: branch.first_extent.copy(),
        second_extent: branch.second_extent.copy(),
    }
}

/// Rows, as they are seen from an origin.
fn rows_back<P: Plane>(
    alloc: Global,
    rows: &[Row<P::Leaf>],
    first: &Tumbler,
    second: &Tumbler,
) -> Result<List<Row<P::Leaf>>, Memory>
    requires first_before { All (λ row. StandsBefore first.now row.first) (map (plain_row P.plain) rows.now) }
    requires second_before { All (λ row. StandsBefore second.now row.second) (map (plain_row P.plain) rows.now) }
    ensures { IfOk result (λ made. map (plain_row P.plain) made.items ≡ map (back first.now second.now) (map (plain_row P.plain) rows.now)) }
{
    let mut made = List::new(alloc);
    made.reserve(rows.len())?;
    for row in rows {
        made.push_reserved(row_back::<P>(alloc, row, first, second)?);
    }
    Ok(made)
}

/// Branches, as they are seen from an origin.
fn branches_back(
    alloc: Global,
    branches: &[Branch],
    first: &Tumbler,
    second: &Tumbler,
) -> Result<List<Branch>, Memory>
    requires first_up_to { All (λ branch. IsUpTo first.now branch.first) branches.now }
    requires second_up_to { All (λ branch. IsUpTo second.now branch.second) branches.now }
    ensures { IfOk result (λ made. made.items ≡ map (branch_back first.now second.now) branches.now) }
{
    let mut made = List::new(alloc);
    made.reserve(branches.len())?;
    for branch in branches {
        made.push_reserved(branch_back(branch, first, second));
    }
    Ok(made)
}

impl<P: Plane> Arena<P> {
    /// A new node with these children, and the branch to it where its origin stands at these places.
    pub(crate) fn placed(
        &mut self,
        children: Children<P::Leaf>,
        first: Tumbler,
        second: Tumbler,
    ) -> Result<Branch, Memory>
        requires { MayStandAt P.widths self.old (shape P.plain children) first second }
        ensures grows { Grows self.old self.new }
        ensures placed { IfOk result (λ branch. IsPlaced P.widths self.old self.new (shape P.plain children) first second branch) }
        ensures balance_state { IfOk result (λ branch. balance_state_of self.new branch.node.0 ≡ balance_state_in (balance_states self.old) (shape P.plain children)) }
    {
        let node = self.add_node(children)?;
        let summary = self.summary(node);
        Ok(Branch {
            node,
            first_extent: summary.first_extent,
            second_extent: summary.second_extent,
            first,
            second,
        })
    }

    /// A new bottom node, which begins just before its least coordinate on each axis, and the branch by which its
    /// rows stand where they stood.
    pub fn rows_packed(&mut self, rows: &[Row<P::Leaf>]) -> Result<Branch, Memory>
        requires well_formed { IsWellFormedRows P.widths (map (plain_row P.plain) rows.now) }
        requires some { rows.now ≢ [] }
        ensures grows { Grows self.old self.new }
        ensures packed { IfOk result (λ branch. IsPacked P.widths self.old self.new (Rows (map (plain_row P.plain) rows.now)) branch) }
        ensures balance_state { IfOk result (λ branch. balance_state_of self.new branch.node.0 ≡ balance_state_in (balance_states self.old) (Rows (map (plain_row P.plain) rows.now))) }
    {
        let first = first_before::<P>(rows);
        let second = second_before::<P>(rows);
        let made = rows_back::<P>(self.allocator(), rows, &first, &second)?;
        self.placed(Children::Bottom(made), first, second)
    }

    /// A new inner node, which begins where the least of its children's origins is on each axis, and the
    /// branch by which they stand where they stood.
    pub fn branches_packed(&mut self, branches: &[Branch]) -> Result<Branch, Memory>
        requires well_formed { IsWellFormed P.widths self.old (Branches branches.now) }
        requires filled { rows_in (rows_table self.old) (Branches branches.now) ≢ [] }
        ensures grows { Grows self.old self.new }
        ensures packed { IfOk result (λ branch. IsPacked P.widths self.old self.new (Branches branches.now) branch) }
        ensures balance_state { IfOk result (λ branch. balance_state_of self.new branch.node.0 ≡ balance_state_below (balance_states self.old) branches.now) }
    {
        let first = first_least(branches);
        let second = second_least(branches);
        let made = branches_back(self.allocator(), branches, &first, &second)?;
        self.placed(Children::Inner(made), first, second)
    }

    /// A new node for children, and the branch by which they stand where they stood.
    ///
    /// A bottom node begins just before its least coordinate on each axis, so that only a coordinate that is zero
    /// has a displacement zero in it; another begins where the least of its children's origins is.
    pub(crate) fn packed(&mut self, children: &Children<P::Leaf>) -> Result<Branch, Memory>
        requires well_formed { IsWellFormed P.widths self.old (shape P.plain children.now) }
        requires filled { rows_in (rows_table self.old) (shape P.plain children.now) ≢ [] }
        ensures grows { Grows self.old self.new }
        ensures packed { IfOk result (λ branch. IsPacked P.widths self.old self.new (shape P.plain children.now) branch) }
    {
        match children {
            Children::Bottom(rows) => self.rows_packed(rows.as_slice()),
            Children::Inner(branches) => self.branches_packed(branches.as_slice()),
        }
    }
}
