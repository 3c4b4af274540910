//! How far a tree is from its good shape.
ghost use Rattle.std.specs.Prelude.{◌≡◌, ◌+◌, ◌<◌, ◌==◌, min, length, All};
ghost use Rattle.enfilade_core.specs.Summary.{most_count};
ghost use Rattle.enfilade_core.specs.BalanceState.{balance_states, has_lone_child, tree_debt, tree_allows};
ghost use Rattle.enfilade_core.specs.Plain.{shape};
ghost use Rattle.enfilade_balance.specs.Path.{debt_below, own_debt};

use enfilade_core::laws::nodes_are_well_formed;
use enfilade_core::{Arena, Branch, Children, Node, Plane};

/// The most children that a root has without debt.
const MOST_CHILDREN: u64 = 12;

/// What a root owes whose one child is a node.
const LONE_CHILD: u64 = 7;

/// What a root with so many branches owes itself.
fn own_debt(children: u64) -> u64
    ensures { result ≡ own_debt children }
{
    if children == 1 {
        return LONE_CHILD;
    }
    children.saturating_sub(MOST_CHILDREN)
}

/// What the nodes of branches owe, and `owed` more.
fn debt_below<P: Plane>(arena: &Arena<P>, branches: &[Branch], owed: u64) -> u64
    requires { All (λ branch. branch.node.0 < length arena.now) branches.now }
    ensures { result ≡ min (owed + debt_below (balance_states arena.now) branches.now) most_count }
{
    let mut debt = owed;
    for branch in branches {
        let below = arena.balance_state(branch.node);
        debt = debt.saturating_add(below.debt);
    }
    debt
}

/// How far a tree is from its good shape, up to 2^64 - 1. It looks at the root and takes no memory.
pub fn debt<P: Plane>(arena: &Arena<P>, root: Node) -> u64
    requires { root.0 < length arena.now }
    ensures { result ≡ min (tree_debt arena.now root.0) most_count }
{
    nodes_are_well_formed(arena);
    match arena.node(root) {
        Children::Bottom(rows) => (rows.len() as u64).saturating_sub(MOST_CHILDREN),
        Children::Inner(branches) => {
            let owed = own_debt(branches.len() as u64);
            debt_below(arena, branches.as_slice(), owed)
        }
    }
}

/// Whether one child hangs here, which is a node.
fn has_lone_child<P: Plane>(children: &Children<P::Leaf>) -> bool
    ensures { result ≡ has_lone_child (shape P.plain children.now) }
{
    match children {
        Children::Bottom(_) => false,
        Children::Inner(branches) => branches.len() == 1,
    }
}

/// Whether a step is allowed in a tree. It looks at the root and takes no memory.
pub fn allows<P: Plane>(arena: &Arena<P>, root: Node) -> bool
    requires { root.0 < length arena.now }
    ensures { result ≡ tree_allows arena.now root.0 }
{
    if arena.balance_state(root).allows {
        return true;
    }
    has_lone_child::<P>(arena.node(root))
}
