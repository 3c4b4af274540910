//! Background rounds beside the sessions.
ghost use Rattle.history_lock.specs.Passes.{IsPassOf};

use crate::clocks::MakeClock;
use green_io::Disk;
use green_store::Housed;
use green_top::{Round, background_round};
use history_lock::{HistoryLock, Pass};
use std::alloc::Global;
use std::sync::Wait;
use std::sync::atomic::AtomicU64;
use std::sync::atomic::Ordering::SeqCst;
use std::thread;
use std::thread::Scope;
use std::time::{Clock, Duration};

/// What the flag says while sessions are served.
pub(crate) const SERVING: u64 = 0;

/// What it says once no more are.
pub(crate) const ENDED: u64 = 1;

/// Makes background rounds until the flag says that the sessions have ended, all with one clock. It rests for 10 milliseconds
/// where a round put nothing right.
fn make_rounds<R: Wait + Clock + MakeClock, D: Disk>(
    rt: &R,
    alloc: Global,
    lock: &HistoryLock<Housed<D>>,
    mut pass: Pass<Housed<D>>,
    state: &AtomicU64,
)
    requires { IsPassOf lock.now pass }
{
    let mut clock = rt.clock();
    for _ in rt.forever() {
        if state.load(SeqCst) == ENDED {
            return;
        }
        match background_round(rt, alloc, lock, &mut pass, &mut clock) {
            Round::Balanced | Round::Flushed | Round::Swept => {}
            Round::Idle | Round::Disk | Round::Memory => {
                thread::sleep(rt, Duration::from_millis(10));
            }
        }
    }
}

/// Starts the thread that makes rounds. It says whether one could be started.
pub(crate) fn start_rounds<'s, E, R: Wait + Clock + MakeClock + Sync, D: Disk + Send + Sync>(
    scope: &Scope<'s, E>,
    rt: &'s R,
    alloc: Global,
    lock: &'s HistoryLock<Housed<D>>,
    pass: Pass<Housed<D>>,
    state: &'s AtomicU64,
) -> bool
    requires { IsPassOf lock.now pass }
{
    let started = scope.spawn(
        move ||
            requires { IsPassOf lock.now pass }
        { make_rounds(rt, alloc, lock, pass, state) },
    );
    started.is_ok()
}
