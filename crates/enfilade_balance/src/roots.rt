//! New roots.
ghost use Rattle.std.specs.Prelude.{◌≡◌, ◌+◌, ◌<◌, ◌≤◌, [], map, length, IsTrue, IfOk};
ghost use Rattle.enfilade_core.specs.Rows.{Rows, Branches, branch_rows, rows_in, rows_table, node_at};
ghost use Rattle.enfilade_core.specs.Axes.{IsWellFormedRows};
ghost use Rattle.enfilade_core.specs.WellFormed.{IsWellFormed, IsWellFormedPart};
ghost use Rattle.enfilade_core.specs.BalanceState.{split_above, balance_states, balance_state_of, tree_debt};
ghost use Rattle.enfilade_core.specs.Plain.{plain_row};
ghost use Rattle.enfilade_core.specs.Exchange.{Grows};
ghost use Rattle.enfilade_balance.specs.OneStep.{children_of, SplitsRoot};
ghost use Rattle.enfilade_balance.specs.Path.{debt_below, own_debt, IsRootOf, IsLighter};

use crate::halves::{branches_halved, rows_halved};
use crate::opening::opened;
use enfilade_core::laws::nodes_are_well_formed;
use enfilade_core::{Arena, Branch, Children, Node, Plane, Row};
use tumbler::{List, Memory};

/// A root with these branches.
pub(crate) fn root_over<P: Plane>(
    arena: &mut Arena<P>,
    branches: List<Branch>,
) -> Result<Node, Memory>
    requires { IsWellFormed P.widths arena.old (Branches branches.items) }
    ensures grows { Grows arena.old arena.new }
    ensures root { IfOk result (λ root. IsRootOf arena.new (rows_in (rows_table arena.old) (Branches branches.items)) root.0) }
    ensures owes { IfOk result (λ root. tree_debt arena.new root.0 ≡ own_debt (length branches.items) + debt_below (balance_states arena.old) branches.items) }
    ensures is { IfOk result (λ root. node_at arena.new root.0 ≡ Branches branches.items) }
{
    let root = arena.add_node(Children::Inner(branches))?;
    Ok(root)
}

/// A root over two halves of these rows.
pub(crate) fn root_of_rows<P: Plane>(
    arena: &mut Arena<P>,
    rows: &[Row<P::Leaf>],
) -> Result<Node, Memory>
    requires well_formed { IsWellFormedRows P.widths (map (plain_row P.plain) rows.now) }
    requires many { split_above < length rows.now }
    ensures grows { Grows arena.old arena.new }
    ensures root { IfOk result (λ root. IsLighter arena.old arena.new (Rows (map (plain_row P.plain) rows.now)) root.0) }
    ensures splits { IfOk result (λ root. SplitsRoot P.widths arena.new (Rows (map (plain_row P.plain) rows.now)) root.0) }
{
    let halves = rows_halved(arena, rows)?;
    root_over(arena, halves)
}

/// A root over two halves of these branches.
pub(crate) fn root_of_branches<P: Plane>(
    arena: &mut Arena<P>,
    branches: &[Branch],
) -> Result<Node, Memory>
    requires well_formed { IsWellFormed P.widths arena.old (Branches branches.now) }
    requires many { split_above < length branches.now }
    ensures grows { Grows arena.old arena.new }
    ensures root { IfOk result (λ root. IsLighter arena.old arena.new (Branches branches.now) root.0) }
    ensures splits { IfOk result (λ root. SplitsRoot P.widths arena.new (Branches branches.now) root.0) }
{
    let halves = branches_halved(arena, branches)?;
    root_over(arena, halves)
}

/// Whether a branch's node stands where its parent does.
fn stands_at_zero(branch: &Branch) -> bool
    ensures first { IsTrue result → branch.now.first ≡ [] }
    ensures second { IsTrue result → branch.now.second ≡ [] }
{
    if !branch.first.places().is_empty() {
        return false;
    }
    branch.second.places().is_empty()
}

/// The children of a branch's node, where they stand, as those of a root. Where the node stands at zero it is
/// that root.
pub(crate) fn root_below<P: Plane>(arena: &mut Arena<P>, branch: &Branch) -> Result<Node, Memory>
    requires { IsWellFormedPart P.widths arena.old branch.now }
    ensures grows { Grows arena.old arena.new }
    ensures root { IfOk result (λ root. IsRootOf arena.new (branch_rows (rows_table arena.old) branch.now) root.0) }
    ensures owes { IfOk result (λ root. tree_debt arena.new root.0 ≤ (balance_state_of arena.old branch.now.node.0).debt) }
    ensures is { IfOk result (λ root. node_at arena.new root.0 ≡ children_of arena.old branch.now) }
{
    nodes_are_well_formed(arena);
    if stands_at_zero(branch) {
        return Ok(branch.node);
    }
    let children = opened(arena, branch.node, &branch.first, &branch.second)?;
    let root = arena.add_node(children)?;
    Ok(root)
}
