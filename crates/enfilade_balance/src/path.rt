//! A step, down the path to where it is allowed.
ghost use Rattle.std.specs.Prelude.{◌≡◌, ◌+◌, ◌<◌, ◌≤◌, ◌++◌, [], ◌∷◌, true, map, take, drop, length, All, IfOk};
ghost use Rattle.enfilade_core.specs.Rows.{Rows, Branches, branch_rows, rows_in, rows_table};
ghost use Rattle.enfilade_core.specs.Axes.{IsWellFormedRows};
ghost use Rattle.enfilade_core.specs.WellFormed.{IsWellFormed, IsWellFormedPart};
ghost use Rattle.enfilade_core.specs.Summary.{height_of};
ghost use Rattle.enfilade_core.specs.BalanceState.{split_above, balance_states, balance_states_below, balance_state_in, balance_state_below, balance_state_of, has_merge};
ghost use Rattle.enfilade_core.specs.Plain.{plain_row};
ghost use Rattle.enfilade_core.specs.Exchange.{Grows, height_in};
ghost use Rattle.enfilade_balance.specs.OneStep.{Steps};
ghost use Rattle.enfilade_balance.specs.Path.{may_step, InTwo, InOne, StepsFor, Replaces, AreStepped};

use crate::finding::{allowing, mergeable};
use crate::halves::{branches_halved, rows_halved};
use crate::merging::{append_branches, merged};
use crate::opening::opened;
use enfilade_core::{Arena, Branch, Children, Node, Plane, Row};
use std::alloc::Global;
use tumbler::{List, Memory};

/// A node with more children than this may be split.
pub(crate) const SPLIT_ABOVE: usize = 16;

/// Branches after a step, and whether it was a split.
#[derive(Drop)]
pub(crate) struct Stepped {
    pub(crate) branches: List<Branch>,
    pub(crate) is_split: bool,
}

/// A list of one branch.
fn alone(alloc: Global, branch: Branch) -> Result<List<Branch>, Memory>
    ensures { IfOk result (λ made. made.items ≡ branch ∷ []) }
{
    let mut made = List::new(alloc);
    made.push(branch)?;
    Ok(made)
}

/// Branches with others in place of those from number `from` on and before number `to`.
fn with_others(
    alloc: Global,
    branches: &[Branch],
    from: usize,
    to: usize,
    others: &[Branch],
) -> Result<List<Branch>, Memory>
    requires from { from ≤ to }
    requires to { to ≤ length branches.now }
    ensures { IfOk result (λ made. made.items ≡ take from branches.now ++ (others.now ++ drop to branches.now)) }
{
    let (front, _) = branches.split_at(from);
    let (_, behind) = branches.split_at(to);
    let mut made = List::new(alloc);
    made.reserve(branches.len().saturating_add(others.len()))?;
    append_branches(front, &mut made)?;
    append_branches(others, &mut made)?;
    append_branches(behind, &mut made)?;
    Ok(made)
}

/// Two bottom nodes for one with many rows.
fn rows_split<P: Plane>(arena: &mut Arena<P>, rows: &[Row<P::Leaf>]) -> Result<Stepped, Memory>
    requires well_formed { IsWellFormedRows P.widths (map (plain_row P.plain) rows.now) }
    requires many { split_above < length rows.now }
    ensures grows { Grows arena.old arena.new }
    ensures replaces { IfOk result (λ made. Replaces P.widths arena.new (height_in P.widths arena.old (Rows (map (plain_row P.plain) rows.now))) (map (plain_row P.plain) rows.now) (balance_state_in (balance_states arena.old) (Rows (map (plain_row P.plain) rows.now))).debt made.branches.items) }
    ensures split { IfOk result (λ made. (made.is_split ≡ true) × InTwo P.widths arena.new (Rows (map (plain_row P.plain) rows.now)) made.branches.items) }
{
    let branches = rows_halved(arena, rows)?;
    Ok(Stepped {
        branches,
        is_split: true,
    })
}

/// Two inner nodes for one with many branches.
fn branches_split<P: Plane>(arena: &mut Arena<P>, branches: &[Branch]) -> Result<Stepped, Memory>
    requires well_formed { IsWellFormed P.widths arena.old (Branches branches.now) }
    requires many { split_above < length branches.now }
    ensures grows { Grows arena.old arena.new }
    ensures replaces { IfOk result (λ made. Replaces P.widths arena.new (height_in P.widths arena.old (Branches branches.now)) (rows_in (rows_table arena.old) (Branches branches.now)) (balance_state_below (balance_states arena.old) branches.now).debt made.branches.items) }
    ensures split { IfOk result (λ made. (made.is_split ≡ true) × InTwo P.widths arena.new (Branches branches.now) made.branches.items) }
{
    let branches = branches_halved(arena, branches)?;
    Ok(Stepped {
        branches,
        is_split: true,
    })
}

/// The branches that were made, under one node.
fn under_one<P: Plane>(arena: &mut Arena<P>, stepped: Stepped) -> Result<Stepped, Memory>
    requires { IsWellFormed P.widths arena.old (Branches stepped.branches.items) }
    ensures grows { Grows arena.old arena.new }
    ensures replaces { IfOk result (λ made. Replaces P.widths arena.new (height_in P.widths arena.old (Branches stepped.branches.items)) (rows_in (rows_table arena.old) (Branches stepped.branches.items)) ((balance_state_below (balance_states arena.old) stepped.branches.items).debt + 1) made.branches.items) }
    ensures same { IfOk result (λ made. made.is_split ≡ stepped.is_split) }
    ensures one { IfOk result (λ made. InOne P.widths arena.new stepped.branches.items made.branches.items) }
{
    let branch = arena.branches_packed(stepped.branches.as_slice())?;
    let branches = alone(arena.allocator(), branch)?;
    Ok(Stepped {
        branches,
        is_split: stepped.is_split,
    })
}

/// The branches of a node, with one in place of two neighbours.
fn neighbours_merged<P: Plane>(arena: &mut Arena<P>, branches: &[Branch]) -> Result<Stepped, Memory>
    requires well_formed { IsWellFormed P.widths arena.old (Branches branches.now) }
    requires some { has_merge (balance_states_below (balance_states arena.old) branches.now) ≡ true }
    ensures grows { Grows arena.old arena.new }
    ensures stepped { IfOk result (λ made. AreStepped P.widths arena.old arena.new branches.now made.branches.items) }
    ensures steps { IfOk result (λ made. Steps P.widths arena.new made.is_split branches.now made.branches.items) }
{
    let Some(k) = mergeable(arena, branches) else {
        unreachable!();
    };
    let branch = merged(arena, &branches[k - 1], &branches[k])?;
    let alloc = arena.allocator();
    let one = alone(alloc, branch)?;
    let branches = with_others(alloc, branches, k - 1, k + 1, one.as_slice())?;
    Ok(Stepped {
        branches,
        is_split: false,
    })
}

/// One or two branches in place of one, at or under whose node a step is allowed.
#[cycle(stepping)]
fn branch_stepped<P: Plane>(arena: &mut Arena<P>, branch: &Branch) -> Result<Stepped, Memory>
    requires part { IsWellFormedPart P.widths arena.old branch.now }
    requires allowed { (balance_state_of arena.old branch.now.node.0).allows ≡ true }
    ensures grows { Grows arena.old arena.new }
    ensures replaces { IfOk result (λ made. Replaces P.widths arena.new (height_of P.widths arena.old branch.now.node.0) (branch_rows (rows_table arena.old) branch.now) (balance_state_of arena.old branch.now.node.0).debt made.branches.items) }
    ensures steps { IfOk result (λ made. StepsFor P.widths arena.new made.is_split branch.now made.branches.items) }
{
    let children = opened(arena, branch.node, &branch.first, &branch.second)?;
    match children {
        Children::Bottom(rows) => rows_split(arena, rows.as_slice()),
        Children::Inner(branches) => {
            if branches.len() > SPLIT_ABOVE {
                return branches_split(arena, branches.as_slice());
            }
            let stepped = branches_stepped(arena, branch.node, branches.as_slice())?;
            under_one(arena, stepped)
        }
    }
}

/// The branches of a node after a step at or under one of them.
#[cycle(stepping)]
pub(crate) fn branches_stepped<P: Plane>(
    arena: &mut Arena<P>,
    below: Node,
    branches: &[Branch],
) -> Result<Stepped, Memory>
    requires named { All (λ branch. branch.node.0 < below.0) branches.now }
    requires well_formed { IsWellFormed P.widths arena.old (Branches branches.now) }
    requires allowed { may_step (balance_states arena.old) branches.now ≡ true }
    ensures grows { Grows arena.old arena.new }
    ensures stepped { IfOk result (λ made. AreStepped P.widths arena.old arena.new branches.now made.branches.items) }
    ensures steps { IfOk result (λ made. Steps P.widths arena.new made.is_split branches.now made.branches.items) }
{
    let Some(k) = allowing(arena, branches) else {
        return neighbours_merged(arena, branches);
    };
    let stepped = branch_stepped(arena, &branches[k])?;
    let alloc = arena.allocator();
    let made = with_others(alloc, branches, k, k + 1, stepped.branches.as_slice())?;
    Ok(Stepped {
        branches: made,
        is_split: stepped.is_split,
    })
}
