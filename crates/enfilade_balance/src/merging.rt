//! Neighbours with few children are merged.
ghost use Rattle.std.specs.Prelude.{◌≡◌, ◌≢◌, ◌++◌, [], map, IfOk, OnOk};
ghost use Rattle.enfilade_core.specs.Rows.{Rows, Branches, rows_in, rows_table};
ghost use Rattle.enfilade_core.specs.WellFormed.{IsWellFormed};
ghost use Rattle.enfilade_core.specs.Plain.{shape, plain_row};
ghost use Rattle.enfilade_core.specs.Exchange.{Grows};
ghost use Rattle.enfilade_balance.specs.OneStep.{AreAlike, joined};
ghost use Rattle.enfilade_balance.specs.Path.{Packs, AreNeighbours, IsMerged};

use crate::opening::opened;
use enfilade_core::{Arena, Branch, Children, Plane, Row};
use std::alloc::Global;
use tumbler::{List, Memory};

/// Copies of rows go behind others.
fn append_rows<P: Plane>(
    alloc: Global,
    rows: &[Row<P::Leaf>],
    into: &mut List<Row<P::Leaf>>,
) -> Result<(), Memory>
    ensures { OnOk result (map (plain_row P.plain) into.new.items ≡ map (plain_row P.plain) into.old.items ++ map (plain_row P.plain) rows.now) }
{
    for row in rows {
        into.push(Row {
            first: row.first.copy(),
            second: row.second.copy(),
            leaf: P::copy_leaf(alloc, &row.leaf)?,
        })?;
    }
    Ok(())
}

/// Copies of branches go behind others.
pub(crate) fn append_branches(branches: &[Branch], into: &mut List<Branch>) -> Result<(), Memory>
    ensures { OnOk result (into.new.items ≡ into.old.items ++ branches.now) }
{
    for branch in branches {
        into.push(branch.copy())?;
    }
    Ok(())
}

/// Rows, and the others behind them.
fn joined_rows<P: Plane>(
    alloc: Global,
    rows: List<Row<P::Leaf>>,
    more: &Children<P::Leaf>,
) -> Result<Children<P::Leaf>, Memory>
    requires { AreAlike (Rows (map (plain_row P.plain) rows.items)) (shape P.plain more.now) }
    ensures { IfOk result (λ made. shape P.plain made ≡ joined (Rows (map (plain_row P.plain) rows.items)) (shape P.plain more.now)) }
{
    let mut made = rows;
    match more {
        Children::Bottom(more) => {
            made.reserve(more.len())?;
            append_rows::<P>(alloc, more.as_slice(), &mut made)?;
            Ok(Children::Bottom(made))
        }
        Children::Inner(_) => unreachable!(),
    }
}

/// Branches, and the others behind them.
fn joined_branches<P: Plane>(
    branches: List<Branch>,
    more: &Children<P::Leaf>,
) -> Result<Children<P::Leaf>, Memory>
    requires { AreAlike (Branches branches.items) (shape P.plain more.now) }
    ensures { IfOk result (λ made. shape P.plain made ≡ joined (Branches branches.items) (shape P.plain more.now)) }
{
    let mut made = branches;
    match more {
        Children::Bottom(_) => unreachable!(),
        Children::Inner(more) => {
            made.reserve(more.len())?;
            append_branches(more.as_slice(), &mut made)?;
            Ok(Children::Inner(made))
        }
    }
}

/// Children, and others of their kind behind them.
fn joined<P: Plane>(
    alloc: Global,
    children: Children<P::Leaf>,
    more: &Children<P::Leaf>,
) -> Result<Children<P::Leaf>, Memory>
    requires { AreAlike (shape P.plain children) (shape P.plain more.now) }
    ensures { IfOk result (λ made. shape P.plain made ≡ joined (shape P.plain children) (shape P.plain more.now)) }
{
    match children {
        Children::Bottom(rows) => joined_rows::<P>(alloc, rows, more),
        Children::Inner(branches) => joined_branches::<P>(branches, more),
    }
}

/// A new node for children, with an origin of its own.
fn packed<P: Plane>(arena: &mut Arena<P>, children: &Children<P::Leaf>) -> Result<Branch, Memory>
    requires well_formed { IsWellFormed P.widths arena.old (shape P.plain children.now) }
    requires filled { rows_in (rows_table arena.old) (shape P.plain children.now) ≢ [] }
    ensures grows { Grows arena.old arena.new }
    ensures packs { IfOk result (λ made. Packs P.widths arena.old arena.new (shape P.plain children.now) made) }
{
    match children {
        Children::Bottom(rows) => arena.rows_packed(rows.as_slice()),
        Children::Inner(branches) => arena.branches_packed(branches.as_slice()),
    }
}

/// A new node with the children of two neighbours.
pub(crate) fn merged<P: Plane>(
    arena: &mut Arena<P>,
    a: &Branch,
    b: &Branch,
) -> Result<Branch, Memory>
    requires { AreNeighbours P.widths arena.old a.now b.now }
    ensures grows { Grows arena.old arena.new }
    ensures merged { IfOk result (λ made. IsMerged P.widths arena.old arena.new a.now b.now made) }
{
    let lower = opened(arena, a.node, &a.first, &a.second)?;
    let upper = opened(arena, b.node, &b.first, &b.second)?;
    let children = joined::<P>(arena.allocator(), lower, &upper)?;
    packed(arena, &children)
}
