//! Trees of nodes that never change and that trees may share, with displacements on two axes.
#![tactic(auto)]

mod arena;
mod balance_state;
mod check_children;
mod compare_gap;
mod edits;
mod exchange;
mod exchange_bottom;
mod find_before;
mod gap;
mod keep_nodes;
pub mod laws;
mod list_rows;
mod move_children;
mod pack_children;
mod plane;
mod planes;
mod reach;
mod rebuild_node;
mod siblings;
mod stored_node;
mod summarize;
mod summary;
mod tree;

pub use arena::Arena;
pub use balance_state::BalanceState;
pub use edits::Exchanged;
pub use find_before::RowAt;
pub use gap::Gap;
pub use move_children::{branches_moved, rows_moved};
pub use plane::Plane;
pub use planes::{ContentPlane, KeyPlane, TextPlane};
pub use reach::Reach;
pub use tree::{Branch, Children, Node, Row, TreeMark};
