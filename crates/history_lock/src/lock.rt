//! The lock.
ghost use Rattle.std.specs.Prelude.{◌≡◌};

use crate::kept::Kept;
use crate::steps::Law;
use crate::view::View;
use atomic_table::Table;
use std::alloc::Global;
use std::snapshot::Snapshot;

// Word 0 is 1 while a pass holds the lock, and else 0. Word 1 is the length of the history.
pub(crate) const LOCK: usize = 0;

pub(crate) const COUNT: usize = 1;
// Slot 0 has the value.
pub(crate) const SLOT: usize = 0;

/// A lock over a value whose history grows.
#[derive(Drop)]
pub struct HistoryLock<T: Kept> {
    pub(crate) table: Table<Option<T>, View<T::Entry>, Snapshot<T>, Law, Global>,
    ghost sized: { (table.shared.table_id.words ≡ 2) × (table.shared.table_id.slots ≡ 1) },
}
