//! Nodes with many children are split.
ghost use Rattle.std.specs.Prelude.{◌≡◌, ◌<◌, [], ◌∷◌, map, length, IfOk};
ghost use Rattle.enfilade_core.specs.Rows.{Rows, Branches};
ghost use Rattle.enfilade_core.specs.Axes.{IsWellFormedRows};
ghost use Rattle.enfilade_core.specs.WellFormed.{IsWellFormed};
ghost use Rattle.enfilade_core.specs.BalanceState.{split_above};
ghost use Rattle.enfilade_core.specs.Plain.{plain_row};
ghost use Rattle.enfilade_core.specs.Exchange.{Grows};
ghost use Rattle.enfilade_balance.specs.Path.{IsHalved};

use enfilade_core::{Arena, Branch, Plane, Row};
use std::alloc::Global;
use tumbler::{List, Memory};

fn pair(alloc: Global, lower: Branch, upper: Branch) -> Result<List<Branch>, Memory>
    ensures { IfOk result (λ made. made.items ≡ lower ∷ upper ∷ []) }
{
    let mut made = List::new(alloc);
    made.push(lower)?;
    made.push(upper)?;
    Ok(made)
}

/// Two bottom nodes, the first with half of the rows, rounded down, the second with the others.
pub(crate) fn rows_halved<P: Plane>(
    arena: &mut Arena<P>,
    rows: &[Row<P::Leaf>],
) -> Result<List<Branch>, Memory>
    requires well_formed { IsWellFormedRows P.widths (map (plain_row P.plain) rows.now) }
    requires many { split_above < length rows.now }
    ensures grows { Grows arena.old arena.new }
    ensures halved { IfOk result (λ made. IsHalved P.widths arena.old arena.new (Rows (map (plain_row P.plain) rows.now)) made.items) }
{
    let alloc = arena.allocator();
    let (front, back) = rows.split_at(rows.len() / 2);
    let lower = arena.rows_packed(front)?;
    let upper = arena.rows_packed(back)?;
    pair(alloc, lower, upper)
}

/// Two inner nodes, the first with half of the branches, rounded down, the second with the others.
pub(crate) fn branches_halved<P: Plane>(
    arena: &mut Arena<P>,
    branches: &[Branch],
) -> Result<List<Branch>, Memory>
    requires well_formed { IsWellFormed P.widths arena.old (Branches branches.now) }
    requires many { split_above < length branches.now }
    ensures grows { Grows arena.old arena.new }
    ensures halved { IfOk result (λ made. IsHalved P.widths arena.old arena.new (Branches branches.now) made.items) }
{
    let alloc = arena.allocator();
    let (front, back) = branches.split_at(branches.len() / 2);
    let lower = arena.branches_packed(front)?;
    let upper = arena.branches_packed(back)?;
    pair(alloc, lower, upper)
}
