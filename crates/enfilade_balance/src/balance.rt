//! Steps of the balancer.
ghost use Rattle.std.specs.Prelude.{◌≡◌, ◌+◌, ◌<◌, ◌≤◌, ◌==◌, ◌||◌, not, true, false, length, All, IsOk, IfOk};
ghost use Rattle.enfilade_core.specs.Rows.{Branches, rows_of, node_at};
ghost use Rattle.enfilade_core.specs.WellFormed.{IsWellFormed};
ghost use Rattle.enfilade_core.specs.BalanceState.{balance_states, balance_state_below, has_lone_child, tree_debt, tree_allows};
ghost use Rattle.enfilade_core.specs.Edits.{KeepsRows};
ghost use Rattle.enfilade_core.specs.Exchange.{Grows};
ghost use Rattle.enfilade_balance.specs.Laws.{IsStep};
ghost use Rattle.enfilade_balance.specs.OneStep.{IsOneStep};
ghost use Rattle.enfilade_balance.specs.Steps.{root_after, is_idle, is_dropped};
ghost use Rattle.enfilade_balance.specs.Path.{IsBalanced};

use crate::debts::allows;
use crate::opening::opened;
use crate::path::{SPLIT_ABOVE, Stepped, branches_stepped};
use crate::roots::{root_below, root_of_branches, root_of_rows, root_over};
use enfilade_core::{Arena, Branch, Children, Node, Plane};
use tumbler::{Memory, Tumbler};

/// What a step did, with the new root.
#[derive(Clone, Copy, Debug, PartialEq, Eq)]
pub enum Balance {
    /// A node with many children became two.
    Split(Node),
    /// Two neighbours with few children became one node.
    Merged(Node),
    /// The root's one child came into its place.
    Dropped(Node),
    /// No step is allowed in the tree.
    Idle,
}

/// A step in a tree over these branches.
fn inner_balanced<P: Plane>(
    arena: &mut Arena<P>,
    root: Node,
    branches: &[Branch],
) -> Result<Balance, Memory>
    requires named { All (λ branch. branch.node.0 < root.0) branches.now }
    requires well_formed { IsWellFormed P.widths arena.old (Branches branches.now) }
    requires allowed { ((balance_state_below (balance_states arena.old) branches.now).allows || length branches.now == 1) ≡ true }
    ensures grows { Grows arena.old arena.new }
    ensures balanced { IfOk result (λ made. IsBalanced arena.old arena.new (Branches branches.now) root made) }
    ensures one { IfOk result (λ made. IsOneStep P.widths arena.new (Branches branches.now) made) }
{
    if branches.len() == 1 {
        let made = root_below(arena, &branches[0])?;
        return Ok(Balance::Dropped(made));
    }
    if branches.len() > SPLIT_ABOVE {
        let made = root_of_branches(arena, branches)?;
        return Ok(Balance::Split(made));
    }
    let Stepped { branches, is_split } = branches_stepped(arena, root, branches)?;
    let made = root_over(arena, branches)?;
    if is_split {
        return Ok(Balance::Split(made));
    }
    Ok(Balance::Merged(made))
}

/// Makes one step in a tree, if one is allowed. It goes down one path to where a step is allowed and copies that path;
/// all other nodes are shared.
///
/// Every tree that was there keeps its rows, also where memory is refused. Where no step is allowed no memory is taken.
pub fn balance_step<P: Plane>(arena: &mut Arena<P>, root: Node) -> Result<Balance, Memory>
    requires { root.0 < length arena.old }
    ensures kept { KeepsRows arena.old arena.new }
    ensures grows { Grows arena.old arena.new }
    ensures below { IfOk result (λ made. (root_after root made).0 < length arena.new) }
    ensures rows { IfOk result (λ made. rows_of arena.new (root_after root made).0 ≡ rows_of arena.old root.0) }
    ensures lowers { IfOk result (λ made. is_idle made ≡ false → tree_debt arena.new (root_after root made).0 + 1 ≤ tree_debt arena.old root.0) }
    ensures step { IfOk result (λ made. is_idle made ≡ false → IsStep arena.old root.0 arena.new (root_after root made).0) }
    ensures one { IfOk result (λ made. IsOneStep P.widths arena.new (node_at arena.old root.0) made) }
    ensures idle { IfOk result (λ made. is_idle made ≡ not (tree_allows arena.old root.0)) }
    ensures dropped { IfOk result (λ made. is_dropped made ≡ has_lone_child (node_at arena.old root.0)) }
    ensures succeeds { tree_allows arena.old root.0 ≡ false → IsOk result }
    ensures same { tree_allows arena.old root.0 ≡ false → arena.new ≡ arena.old }
{
    if !allows(arena, root) {
        return Ok(Balance::Idle);
    }
    let zero = Tumbler::zero(arena.allocator());
    let children = opened(arena, root, &zero, &zero)?;
    match children {
        Children::Bottom(rows) => {
            let made = root_of_rows(arena, rows.as_slice())?;
            Ok(Balance::Split(made))
        }
        Children::Inner(branches) => inner_balanced(arena, root, branches.as_slice()),
    }
}
