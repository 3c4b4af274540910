//! A sweep in place where an arena has one tree.
ghost use Rattle.std.specs.Prelude.{◌≡◌, ℕ, ◌<◌, [], ◌∷◌, length, IfOk};
ghost use Rattle.enfilade_sweep.specs.Sweep.{IsSweptTree};
ghost use Rattle.enfilade_sweep.specs.Plan.{IsPlanFor};

use crate::in_place::{SweepPlan, finish_sweep, plan_sweep};
use enfilade_core::{Arena, Node, Plane};
use tumbler::{List, Memory};

/// Finds what a sweep with this root keeps. It takes all the memory that the sweep needs, and the arena stays as it is.
pub fn plan_tree<P: Plane>(arena: &Arena<P>, root: Node) -> Result<SweepPlan, Memory>
    requires { root.0 < length arena.now }
    ensures made { IfOk result (IsPlanFor arena.now) }
    ensures root { IfOk result (λ plan. plan.roots ≡ root.0 ∷ []) }
{
    let mut roots = List::new(arena.allocator());
    roots.push(root)?;
    plan_sweep(arena, roots)
}

/// Makes the sweep that was planned for the tree, and gives its root as it is named now. It takes no memory.
pub fn finish_tree<P: Plane>(arena: &mut Arena<P>, plan: SweepPlan) -> Node
    requires made { IsPlanFor arena.old plan }
    requires one { length plan.roots ≡ 1 }
    ensures { (root : ℕ) → plan.roots ≡ root ∷ [] → IsSweptTree P.widths arena.old root arena.new result.0 }
{
    let roots = finish_sweep(arena, plan);
    let Some(root) = roots.get(0) else {
        unreachable!()
    };
    *root
}
