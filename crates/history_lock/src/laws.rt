//! What the contracts of the calls come to over any schedule. A law is a function that does nothing, whose contract says it.
ghost use Rattle.std.specs.Prelude.{ℕ, List};
ghost use Rattle.history_lock.specs.Laws.{EachOnceInOrder};

use crate::kept::Kept;

/// Threads make any calls in any order, and then one pass ends the lock. The value that comes back has in its history, of
/// this pass and of each that was taken in by it or by one of those, the entries that its plays added, each once and in
/// order; and no two of these passes have one number. Each play and each look stands at a history with which that one begins, and which
/// itself begins with all that its pass had seen, from the pass that it was made from and from those that it took in.
pub fn each_once_in_order<T: Kept>()
    ensures { (origin : List T.Entry) (fixed : List ℕ) → EachOnceInOrder T.owner T.plays origin fixed }
{}
