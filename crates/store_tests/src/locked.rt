//! The lock with a history, from one thread and from several.
ghost use Rattle.std.specs.Prelude.{◌≡◌};
ghost use Rattle.std.specs.Thread.{IsSync};
ghost use Rattle.history_lock.specs.Passes.{IsPassOf};

mod client;
mod gated;
mod sums;

use client::play_in_two;
use gated::Gated;
use history_lock::{HistoryLock, Pass, Trial};
use std::alloc::{AllocError, Global};
use std::sync::atomic::AtomicU64;
use std::sync::atomic::Ordering::SeqCst;
use std::sync::{Arc, Wait};
use std::test::Fail;
use std::thread::{Threads, join};
use sums::Sums;

// An answer and its point.
fn act<R: Wait>(
    rt: &R,
    alloc: Global,
    lock: &HistoryLock<Sums>,
    pass: &mut Pass<Sums>,
    job: u64,
) -> (u64, u64)
    requires { IsPassOf lock.now pass.old }
    ensures { IsPassOf lock.now pass.new }
{
    let acted = lock.act(rt, alloc, pass, job);
    (acted.answer, acted.point)
}

#[test]
fn answers_come_with_their_points(rt: HostRuntime) -> Result<(), Fail> {
    let Ok((lock, mut pass)) = HistoryLock::new(rt.alloc(), Sums::new(rt.alloc())) else {
        panic!(rt; "there is memory for a lock")
    };
    assert_eq!(rt; (pass.number(), lock.front(&mut pass)), (0, 0));
    assert_eq!(rt; act(&rt, rt.alloc(), &lock, &mut pass, 5), (5, 1));
    assert_eq!(rt; act(&rt, rt.alloc(), &lock, &mut pass, 7), (12, 2));
    assert_eq!(rt; (pass.number(), lock.front(&mut pass)), (1, 2));
    let Ok(sums) = lock.into_inner(pass) else {
        panic!(rt; "nobody holds the lock")
    };
    assert_eq!(rt; sums.entries(), [(1, 5), (1, 7)].as_slice());
    Ok(())
}

#[test]
fn a_pass_from_a_pass_ends_into_another(rt: HostRuntime) -> Result<(), Fail> {
    let Ok((lock, mut first)) = HistoryLock::new(rt.alloc(), Sums::new(rt.alloc())) else {
        panic!(rt; "there is memory for a lock")
    };
    let mut second = lock.new_pass(&mut first);
    let mut third = lock.new_pass(&mut second);
    assert_eq!(rt; act(&rt, rt.alloc(), &lock, &mut third, 5), (5, 1));
    assert_eq!(rt; (third.number(), second.number()), (1, 0));
    lock.end_pass(&mut first, third);
    let Trial::Done(acted) = lock.try_act(rt.alloc(), &mut second, 7) else {
        panic!(rt; "nobody holds the lock")
    };
    assert_eq!(rt; (acted.answer, acted.point), (12, 2));
    assert_eq!(rt; (second.number(), lock.front(&mut first)), (2, 2));
    lock.end_pass(&mut first, second);
    let Ok(sums) = lock.into_inner(first) else {
        panic!(rt; "nobody holds the lock")
    };
    assert_eq!(rt; sums.entries(), [(1, 5), (2, 7)].as_slice());
    Ok(())
}

// Holds the lock until the gate opens.
fn wait_at_gate<R: Wait>(
    rt: &R,
    alloc: Global,
    lock: &HistoryLock<Gated>,
    mut pass: Pass<Gated>,
) -> u64
    requires { IsPassOf lock.now pass }
{
    lock.act(rt, alloc, &mut pass, 3).answer
}

// Waits until the play is made, tries another, and opens the gate. True if it was busy, and the job came back.
fn is_busy<R: Wait>(
    rt: &R,
    alloc: Global,
    lock: &HistoryLock<Gated>,
    mut pass: Pass<Gated>,
    entered: &AtomicU64,
    gate: &AtomicU64,
) -> bool
    requires { IsPassOf lock.now pass }
{
    for _ in rt.forever() {
        if entered.load(SeqCst) != 0 {
            break;
        }
    }
    let busy = match lock.try_act(alloc, &mut pass, 9) {
        Trial::Busy(job) => job == 9,
        Trial::Done(_) => false,
    };
    gate.store(1, SeqCst);
    busy
}

fn held_and_tried<R: Threads + Wait + Sync>(
    rt: &R,
    alloc: Global,
) -> Result<Option<(u64, bool)>, AllocError> {
    let entered = Arc::new(alloc, AtomicU64::new(0))?;
    let gate = Arc::new(alloc, AtomicU64::new(0))?;
    let gated = Gated {
        entered: Arc::try_clone(&entered)?,
        gate: Arc::try_clone(&gate)?,
    };
    let Ok((lock, mut first)) = HistoryLock::new(alloc, gated) else {
        return Ok(None);
    };
    let second = lock.new_pass(&mut first);
    let shared = &lock;
    let (entered, gate) = (&*entered, &*gate);
    Ok(Some(join(
        rt,
        || -> u64
            requires { IsSync R.row × IsPassOf shared.now first }
        { wait_at_gate(rt, alloc, shared, first) },
        || -> bool
            requires { IsSync R.row × IsPassOf shared.now second }
        { is_busy(rt, alloc, shared, second, entered, gate) },
    )))
}

#[test]
fn a_try_is_busy_while_another_thread_plays(rt: HostRuntime) -> Result<(), Fail> {
    assert_eq!(rt; held_and_tried(&rt, rt.alloc())?, Some((3, true)));
    Ok(())
}

// Adds 1, a hundred times.
fn hundred<R: Wait>(
    rt: &R,
    alloc: Global,
    lock: &HistoryLock<Sums>,
    mut pass: Pass<Sums>,
) -> Pass<Sums>
    requires { IsPassOf lock.now pass }
    ensures { IsPassOf lock.now result }
{
    for _ in 0..100 {
        lock.act(rt, alloc, &mut pass, 1);
    }
    pass
}

fn two_hundred<R: Threads + Wait + Sync>(
    rt: &R,
    alloc: Global,
    lock: &HistoryLock<Sums>,
    first: Pass<Sums>,
    second: Pass<Sums>,
) -> (Pass<Sums>, Pass<Sums>)
    requires { IsPassOf lock.now first × IsPassOf lock.now second }
    ensures { IsPassOf lock.now result.0 × IsPassOf lock.now result.1 }
{
    join(
        rt,
        || -> Pass<Sums>
            requires { IsSync R.row × IsPassOf lock.now first }
            ensures { IsPassOf lock.entry.now result }
        { hundred(rt, alloc, lock, first) },
        || -> Pass<Sums>
            requires { IsSync R.row × IsPassOf lock.now second }
            ensures { IsPassOf lock.entry.now result }
        { hundred(rt, alloc, lock, second) },
    )
}

fn four_hundred<R: Threads + Wait + Sync>(rt: &R, alloc: Global) -> Option<Sums> {
    let (lock, mut first) = HistoryLock::new(alloc, Sums::new(alloc)).ok()?;
    let second = lock.new_pass(&mut first);
    let third = lock.new_pass(&mut first);
    let fourth = lock.new_pass(&mut first);
    let shared = &lock;
    let ((mut first, second), (third, fourth)) = join(
        rt,
        || -> (Pass<Sums>, Pass<Sums>)
            requires { IsSync R.row × IsPassOf shared.now first × IsPassOf shared.now second }
            ensures { IsPassOf shared.entry.now result.0 × IsPassOf shared.entry.now result.1 }
        { two_hundred(rt, alloc, shared, first, second) },
        || -> (Pass<Sums>, Pass<Sums>)
            requires { IsSync R.row × IsPassOf shared.now third × IsPassOf shared.now fourth }
            ensures { IsPassOf shared.entry.now result.0 × IsPassOf shared.entry.now result.1 }
        { two_hundred(rt, alloc, shared, third, fourth) },
    );
    lock.end_pass(&mut first, second);
    lock.end_pass(&mut first, third);
    lock.end_pass(&mut first, fourth);
    lock.into_inner(first).ok()
}

#[test]
fn no_play_of_four_threads_is_lost(rt: HostRuntime) -> Result<(), Fail> {
    let Some(sums) = four_hundred(&rt, rt.alloc()) else {
        panic!(rt; "there is memory for a lock, and nobody holds it")
    };
    assert_eq!(rt; (sums.sum(), sums.entries().len()), (400, 400));
    for number in 1..5 {
        let own = sums
            .entries()
            .iter()
            .filter(|entry| entry.0 == number)
            .count();
        assert_eq!(rt; own, 100);
    }
    Ok(())
}

#[test]
fn a_client_of_the_law_plays_in_two_passes(rt: HostRuntime) -> Result<(), Fail> {
    let Some(sums) = play_in_two(&rt, rt.alloc(), Sums::new(rt.alloc())) else {
        panic!(rt; "there is memory for a lock, and nobody holds it")
    };
    assert_eq!(rt; sums.entries(), [(1, 5), (2, 7)].as_slice());
    Ok(())
}
