//! A sweep that leaves the nodes in their arena.
ghost use Rattle.std.specs.Prelude.{◌≡◌, ◌<◌, length, map, get_or, All, IfOk};
ghost use Rattle.enfilade_core.specs.Rows.{rows_of};
ghost use Rattle.enfilade_core.specs.BalanceState.{tree_debt, tree_allows};
ghost use Rattle.enfilade_core.specs.Summary.{depth_of};
ghost use Rattle.enfilade_sweep.specs.Sweep.{numbers, IsSwept, AllReached, reached_count, unreached_count};
ghost use Rattle.enfilade_sweep.specs.Plan.{IsPlanFor};

use crate::copying::node_there;
use crate::marks::{ranks, reached};
use enfilade_core::laws::nodes_are_well_formed;
use enfilade_core::{Arena, Node, Plane};
use std::marker::Model;
use tumbler::{List, Memory};

/// What a sweep of an arena in place is to do, with all the memory that the sweep takes.
///
/// A contract sees the roots' numbers and a mark for each node.
#[derive(Drop)]
pub struct SweepPlan {
    marks: Vec<bool>,
    ranks: Vec<u64>,
    roots: List<Node>,
}

impl Model for SweepPlan {
    ghost use Rattle.enfilade_core.specs.NewNumbers.{AreRanks};
    ghost use Rattle.enfilade_sweep.specs.Sweep.{numbers};
    ghost use Rattle.enfilade_sweep.specs.Plan.{PlannedSweep};

    ghost Value = { PlannedSweep };

    ghost view = { λ plan. record { roots = numbers plan.roots.items; marks = plan.marks.items } };

    ghost invariant = { λ plan. AreRanks plan.marks.items plan.ranks.items };
}

/// Finds what a sweep with these roots keeps. It takes all the memory that the sweep needs, and the arena stays as it is.
pub fn plan_sweep<P: Plane>(arena: &Arena<P>, roots: List<Node>) -> Result<SweepPlan, Memory>
    requires { All (λ root. root.0 < length arena.now) roots.items }
    ensures made { IfOk result (IsPlanFor arena.now) }
    ensures roots { IfOk result (λ plan. plan.roots ≡ numbers roots.items) }
{
    let marks = reached(arena, roots.as_slice())?;
    let ranks = ranks(arena.allocator(), marks.as_slice())?;
    Ok(SweepPlan {
        marks,
        ranks,
        roots,
    })
}

/// Gives the roots the numbers that their nodes have in the arena now.
fn rename_roots<P: Plane>(arena: &Arena<P>, ranks: &[u64], roots: &mut [Node])
    requires known { All (λ root. root.0 < length ranks.now) roots.old }
    requires there { All (λ root. get_or ranks.now root.0 0 < length arena.now) roots.old }
    ensures { numbers roots.new ≡ map (λ k. get_or ranks.now k 0) (numbers roots.old) }
{
    for k in 0..roots.len() {
        roots[k] = node_there(arena, ranks, roots[k]);
    }
}

/// Makes the sweep that was planned for the arena: the nodes that are reached from its roots stay, each once, and the
/// others go. Gives the roots as they are named now. It moves nodes and copies none, and takes no memory.
pub fn finish_sweep<P: Plane>(arena: &mut Arena<P>, plan: SweepPlan) -> List<Node>
    requires { IsPlanFor arena.old plan }
    ensures swept { IsSwept arena.old plan.roots arena.new (numbers result.items) }
    ensures rows { map (rows_of arena.new) (numbers result.items) ≡ map (rows_of arena.old) plan.roots }
    ensures debts { map (tree_debt arena.new) (numbers result.items) ≡ map (tree_debt arena.old) plan.roots }
    ensures allowed { map (tree_allows arena.new) (numbers result.items) ≡ map (tree_allows arena.old) plan.roots }
    ensures depths { map (depth_of P.widths arena.new) (numbers result.items) ≡ map (depth_of P.widths arena.old) plan.roots }
    ensures reached { AllReached arena.new (numbers result.items) }
    ensures count { length arena.new ≡ reached_count arena.old plan.roots }
    ensures none_left { unreached_count arena.new (numbers result.items) ≡ 0 }
{
    let SweepPlan {
        marks,
        ranks,
        mut roots,
    } = plan;
    nodes_are_well_formed(arena);
    arena.keep_marked(marks.as_slice(), ranks.as_slice());
    nodes_are_well_formed(arena);
    rename_roots(arena, ranks.as_slice(), roots.as_mut_slice());
    roots
}
