//! A client that knows nothing of a value but the contracts of the lock's calls, and the law.
ghost use Rattle.std.specs.Prelude.{◌≡◌, IfSome, length};
ghost use Rattle.history_lock.specs.declared.view.View.{View};
ghost use Rattle.history_lock.specs.Laws.{Life, passes, Holds};

use history_lock::laws::each_once_in_order;
use history_lock::{HistoryLock, Kept};
use std::alloc::Global;
use std::sync::Wait;

// Two passes make plays, and one takes in the other and ends the lock. The law holds of what was done with them.
pub fn play_in_two<T: Kept<Job = u64, Answer = u64> + Drop, R: Wait>(
    rt: &R,
    alloc: Global,
    kept: T,
) -> Option<T>
    ensures { IfSome result (λ left. (w : View T.Entry) × (life : Life T.owner T.plays (T.history kept) (T.fixed kept) w) × (length (passes T.owner T.plays (T.history kept) (T.fixed kept) life) ≡ 2) × Holds T.owner T.plays (T.history kept) (T.fixed kept) (T.history left) (T.fixed left) life) }
{
    each_once_in_order::<T>();
    let Ok((lock, mut first)) = HistoryLock::new(alloc, kept) else {
        return None;
    };
    let mut second = lock.new_pass(&mut first);
    lock.act(rt, alloc, &mut first, 5);
    lock.act(rt, alloc, &mut second, 7);
    lock.front(&mut first);
    lock.end_pass(&mut first, second);
    let Ok(left) = lock.into_inner(first) else {
        return None;
    };
    Some(left)
}
