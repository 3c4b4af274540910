//! Where a step is allowed.
ghost use Rattle.std.specs.Prelude.{◌≡◌, ◌+◌, ◌-◌, ◌<◌, ◌≤◌, true, false, length, nat_le, slice_index_or, All, IfSome, IfNone};
ghost use Rattle.std.specs.List.{list_any};
ghost use Rattle.enfilade_core.specs.BalanceState.{merge_up_to, no_balance_state, balance_states, balance_states_below, has_merge};

use enfilade_core::{Arena, BalanceState, Branch, Plane};

/// Neighbours with this many children together, or fewer, may be merged.
const MERGE_UP_TO: u64 = 6;

/// Whether two neighbours have few enough children together for a merge.
fn may_merge(a: BalanceState, b: BalanceState) -> bool
    ensures { result ≡ nat_le (a.children + b.children) merge_up_to }
{
    a.children.saturating_add(b.children) <= MERGE_UP_TO
}

/// The number of the first branch at or under whose node a step is allowed, if there is one.
pub(crate) fn allowing<P: Plane>(arena: &Arena<P>, branches: &[Branch]) -> Option<usize>
    requires { All (λ branch. branch.node.0 < length arena.now) branches.now }
    ensures some { IfSome result (λ k. (k < length branches.now) × ((slice_index_or (balance_states_below (balance_states arena.now) branches.now) k no_balance_state).allows ≡ true)) }
    ensures none { IfNone result (list_any (λ s. s.allows) (balance_states_below (balance_states arena.now) branches.now) ≡ false) }
{
    for k in 0..branches.len() {
        let below = arena.balance_state(branches[k].node);
        if below.allows {
            return Some(k);
        }
    }
    None
}

/// The number of the second of the first two neighbours that may be merged, if there are such.
pub(crate) fn mergeable<P: Plane>(arena: &Arena<P>, branches: &[Branch]) -> Option<usize>
    requires { All (λ branch. branch.node.0 < length arena.now) branches.now }
    ensures some { IfSome result (λ k. (1 ≤ k) × (k < length branches.now) × ((slice_index_or (balance_states_below (balance_states arena.now) branches.now) (k - 1) no_balance_state).children + (slice_index_or (balance_states_below (balance_states arena.now) branches.now) k no_balance_state).children ≤ merge_up_to)) }
    ensures none { IfNone result (has_merge (balance_states_below (balance_states arena.now) branches.now) ≡ false) }
{
    for k in 1..branches.len() {
        let first = arena.balance_state(branches[k - 1].node);
        let second = arena.balance_state(branches[k].node);
        if may_merge(first, second) {
            return Some(k);
        }
    }
    None
}
