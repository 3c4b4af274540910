//! The sweep.
ghost use Rattle.std.specs.Prelude.{◌≡◌, ℕ, ◌<◌, length, map, All, IfOk};
ghost use Rattle.enfilade_core.specs.Rows.{rows_of};
ghost use Rattle.enfilade_core.specs.BalanceState.{tree_debt, tree_allows};
ghost use Rattle.enfilade_core.specs.Summary.{depth_of};
ghost use Rattle.enfilade_sweep.specs.Sweep.{numbers, IsSwept, AllReached, reached_count, unreached_count};

use crate::copying::{copied, renamed_roots};
use crate::marks::{ranks, reached};
use enfilade_core::laws::nodes_are_well_formed;
use enfilade_core::{Arena, Node, Plane};
use tumbler::{List, Memory};

/// A new arena with the nodes that are reached from the roots, each once, and the roots in it.
///
/// Each new root has the rows of the old one at its place, roots that were equal still are, and so nodes that were
/// shared. It goes over the nodes twice and looks at no row but to copy it. The old arena stays as it is.
pub fn sweep<P: Plane>(old: &Arena<P>, roots: &List<Node>) -> Result<(Arena<P>, List<Node>), Memory>
    requires { All (λ root. root.0 < length old.now) roots.now.items }
    ensures swept { IfOk result (λ made. IsSwept old.now (numbers roots.now.items) made.0 (numbers made.1.items)) }
    ensures rows { IfOk result (λ made. map (rows_of made.0) (numbers made.1.items) ≡ map (rows_of old.now) (numbers roots.now.items)) }
    ensures debts { IfOk result (λ made. map (tree_debt made.0) (numbers made.1.items) ≡ map (tree_debt old.now) (numbers roots.now.items)) }
    ensures allowed { IfOk result (λ made. map (tree_allows made.0) (numbers made.1.items) ≡ map (tree_allows old.now) (numbers roots.now.items)) }
    ensures depths { IfOk result (λ made. map (depth_of P.widths made.0) (numbers made.1.items) ≡ map (depth_of P.widths old.now) (numbers roots.now.items)) }
    ensures reached { IfOk result (λ made. AllReached made.0 (numbers made.1.items)) }
    ensures count { IfOk result (λ made. length made.0 ≡ reached_count old.now (numbers roots.now.items)) }
    ensures none_left { IfOk result (λ made. unreached_count made.0 (numbers made.1.items) ≡ 0) }
{
    let marks = reached(old, roots.as_slice())?;
    let ranks = ranks(old.allocator(), marks.as_slice())?;
    let new = copied(old, marks.as_slice(), ranks.as_slice())?;
    nodes_are_well_formed(old);
    nodes_are_well_formed(&new);
    let roots = renamed_roots(&new, ranks.as_slice(), roots.as_slice())?;
    Ok((new, roots))
}
