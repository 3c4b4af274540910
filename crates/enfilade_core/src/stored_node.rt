//! A node as an arena holds it.

use crate::balance_state::BalanceState;
use crate::summary::Summary;
use crate::tree::Children;

/// A node's children, and what is kept of them beside.
#[derive(Drop)]
pub struct StoredNode<L> {
    pub children: Children<L>,
    pub summary: Summary,
    pub balance_state: BalanceState,
}
