//! Rows and branches, moved to where they stand from a base.
ghost use Rattle.std.specs.Prelude.{◌≡◌, map, All, IfOk};
ghost use Rattle.tumbler.specs.Places.{IsTumbler, sum, Fits};
ghost use Rattle.enfilade_core.specs.Rows.{moved};
ghost use Rattle.enfilade_core.specs.Axes.{IsWellFormedRow};
ghost use Rattle.enfilade_core.specs.Plain.{plain_row};
ghost use Rattle.enfilade_core.specs.Exchange.{branch_at};

use crate::plane::Plane;
use crate::tree::{Branch, Row};
use std::alloc::Global;
use tumbler::{List, Memory, Tumbler};

/// A row, moved on both axes.
pub(crate) fn row_moved<P: Plane>(
    alloc: Global,
    row: &Row<P::Leaf>,
    first: &Tumbler,
    second: &Tumbler,
) -> Result<Row<P::Leaf>, Memory>
    requires first_fits { Fits first.now row.now.first }
    requires second_fits { Fits second.now row.now.second }
    ensures { IfOk result (λ made. plain_row P.plain made ≡ moved first.now second.now (plain_row P.plain row.now)) }
{
    Ok(Row {
        first: first.add(&row.first),
        second: second.add(&row.second),
        leaf: P::copy_leaf(alloc, &row.leaf)?,
    })
}

/// A branch, moved on both axes.
pub(crate) fn branch_moved(branch: &Branch, first: &Tumbler, second: &Tumbler) -> Branch
    requires first_fits { Fits first.now branch.now.first }
    requires second_fits { Fits second.now branch.now.second }
    ensures { result ≡ record branch.now { first = sum first.now branch.now.first; second = sum second.now branch.now.second } }
{
    Branch {
        node: branch.node,
        first: first.add(&branch.first),
        second: second.add(&branch.second),
        first_extent: branch.first_extent.copy(),
        second_extent: branch.second_extent.copy(),
    }
}

/// Rows, moved on both axes.
pub fn rows_moved<P: Plane>(
    alloc: Global,
    rows: &[Row<P::Leaf>],
    first: &Tumbler,
    second: &Tumbler,
) -> Result<List<Row<P::Leaf>>, Memory>
    requires { All (IsWellFormedRow P.widths) (map (moved first.now second.now) (map (plain_row P.plain) rows.now)) }
    ensures { IfOk result (λ made. map (plain_row P.plain) made.items ≡ map (moved first.now second.now) (map (plain_row P.plain) rows.now)) }
{
    let mut made = List::new(alloc);
    made.reserve(rows.len())?;
    for row in rows {
        made.push_reserved(row_moved::<P>(alloc, row, first, second)?);
    }
    Ok(made)
}

/// Branches, moved on both axes.
pub fn branches_moved(
    alloc: Global,
    branches: &[Branch],
    first: &Tumbler,
    second: &Tumbler,
) -> Result<List<Branch>, Memory>
    requires first_origins { All (λ branch. IsTumbler (sum first.now branch.first)) branches.now }
    requires second_origins { All (λ branch. IsTumbler (sum second.now branch.second)) branches.now }
    ensures { IfOk result (λ made. made.items ≡ map (branch_at first.now second.now) branches.now) }
{
    let mut made = List::new(alloc);
    made.reserve(branches.len())?;
    for branch in branches {
        made.push_reserved(branch_moved(branch, first, second));
    }
    Ok(made)
}
