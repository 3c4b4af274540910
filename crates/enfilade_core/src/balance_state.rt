//! What an arena keeps of the shape of the tree below a node.
ghost use Rattle.std.specs.Prelude.{◌≡◌, ◌+◌, ◌<◌, ◌≤◌, ◌^◌, ◌||◌, min, map, length, take, nat_lt, nat_le, sum_by, All};
ghost use Rattle.std.specs.List.{list_any};
ghost use Rattle.enfilade_core.specs.Summary.{most_count};
ghost use Rattle.enfilade_core.specs.Rows.{Rows, Branches};
ghost use Rattle.enfilade_core.specs.WellFormed.{NamesBelow};
ghost use Rattle.enfilade_core.specs.BalanceState.{node_debt, has_merge, balance_states, balance_states_below, balance_state_in, balance_state_below, kept_balance_state};
ghost use Rattle.enfilade_core.specs.Plain.{shape};

use crate::arena::Arena;
use crate::plane::Plane;
use crate::tree::{Branch, Children};

/// The most children that a node has without debt.
const MOST_CHILDREN: u64 = 12;

/// The fewest children that a node has without debt, where it is not the root.
const FEWEST_CHILDREN: u64 = 5;

/// A node with more children than this may be split.
const SPLIT_ABOVE: u64 = 16;

/// Neighbours with this many children together, or fewer, may be merged.
const MERGE_UP_TO: u64 = 6;

/// How near a node and those below it are to balance, where it is not the root. It is kept with the node, so that the
/// balancer goes down one path.
#[derive(Clone, Copy, Debug, PartialEq, Eq)]
pub struct BalanceState {
    pub children: u64,
    /// What the node and those below owe, up to the most that this can count.
    pub debt: u64,
    /// Whether a split or a merge is allowed at the node or below.
    pub allows: bool,
}

/// What a node owes that is not the root.
fn node_debt(children: u64) -> u64
    ensures { result ≡ node_debt children }
{
    if children > MOST_CHILDREN {
        return children - MOST_CHILDREN;
    }
    2 * FEWEST_CHILDREN.saturating_sub(children)
}

/// The balance state of a bottom node with so many rows.
fn bottom(rows: usize) -> BalanceState
    ensures { result ≡ record { children = rows; debt = node_debt rows; allows = nat_lt 16 rows } }
{
    let children = rows as u64;
    BalanceState {
        children,
        debt: node_debt(children),
        allows: children > SPLIT_ABOVE,
    }
}

/// Whether two neighbours have few enough children together for a merge.
fn may_merge(a: BalanceState, b: BalanceState) -> bool
    ensures { result ≡ nat_le (a.children + b.children) 6 }
{
    a.children.saturating_add(b.children) <= MERGE_UP_TO
}

impl<P: Plane> Arena<P> {
    /// Whether two neighbours have few enough children together for a merge.
    fn has_merge(&self, branches: &[Branch]) -> bool
        requires { All (λ branch. branch.node.0 < length self.now) branches.now }
        ensures { result ≡ has_merge (balance_states_below (balance_states self.now) branches.now) }
    {
        for k in 1..branches.len() {
            let first = self.balance_state(branches[k - 1].node);
            let second = self.balance_state(branches[k].node);
            if may_merge(first, second) {
                return true;
            }
        }
        false
    }

    /// Whether a split or a merge is allowed at or under one of the nodes.
    fn allows_below(&self, branches: &[Branch]) -> bool
        requires { All (λ branch. branch.node.0 < length self.now) branches.now }
        ensures { result ≡ list_any (λ s. s.allows) (balance_states_below (balance_states self.now) branches.now) }
    {
        for branch in branches {
            let below = self.balance_state(branch.node);
            if below.allows {
                return true;
            }
        }
        false
    }

    /// What the nodes and those below them owe, and `owed` more.
    fn debt_below(&self, branches: &[Branch], owed: u64) -> u64
        requires { All (λ branch. branch.node.0 < length self.now) branches.now }
        ensures { result ≡ min (owed + sum_by (λ s. s.debt) (balance_states_below (balance_states self.now) branches.now)) most_count }
    {
        let mut debt = owed;
        for branch in branches {
            let below = self.balance_state(branch.node);
            debt = debt.saturating_add(below.debt);
        }
        debt
    }

    /// Whether a split or a merge is allowed at a node with these branches, or under it.
    fn allows_inner(&self, branches: &[Branch]) -> bool
        requires { All (λ branch. branch.node.0 < length self.now) branches.now }
        ensures { result ≡ (balance_state_below (balance_states self.now) branches.now).allows }
    {
        if branches.len() as u64 > SPLIT_ABOVE {
            return true;
        }
        if self.allows_below(branches) {
            return true;
        }
        self.has_merge(branches)
    }

    /// The balance state of an inner node with these branches.
    fn inner(&self, branches: &[Branch]) -> BalanceState
        requires { All (λ branch. branch.node.0 < length self.now) branches.now }
        ensures { result ≡ kept_balance_state (balance_state_below (balance_states self.now) branches.now) }
    {
        let children = branches.len() as u64;
        BalanceState {
            children,
            debt: self.debt_below(branches, node_debt(children)),
            allows: self.allows_inner(branches),
        }
    }

    /// The balance state of a node with these children.
    pub(crate) fn children_balance_state(&self, children: &Children<P::Leaf>) -> BalanceState
        requires { NamesBelow (length self.now) (shape P.plain children.now) }
        ensures { result ≡ kept_balance_state (balance_state_in (balance_states self.now) (shape P.plain children.now)) }
    {
        match children {
            Children::Bottom(rows) => bottom(rows.len()),
            Children::Inner(branches) => self.inner(branches.as_slice()),
        }
    }
}
