ghost use Rattle.std.specs.Prelude.{◌≡◌};
ghost use Rattle.session_pool.specs.declared.tests.plain.Numbers.{Numbers};

mod held;
mod plain;

use crate::{Gate, OpenGate, run_pool};
use held::HeldGate;
use history_lock::HistoryLock;
use plain::{Numbers, Plain, Players};
use std::alloc::Global;
use std::sync::Wait;
use std::test::Fail;
use std::thread::Threads;

// How many of the jobs the pool has served, by its tally. `None` for want of memory.
fn served<R: Threads + Wait + Sync, G: Gate + Sync>(
    rt: &R,
    alloc: Global,
    workers: u32,
    jobs: u64,
    gate: &G,
) -> Option<u64> {
    let Ok((lock, mut pass)) = HistoryLock::new(alloc, Plain) else {
        return None;
    };
    let mut numbers = Numbers::up_to(jobs);
    Some(run_pool(
        rt,
        alloc,
        &lock,
        &mut pass,
        workers,
        &mut numbers,
        &Players,
        gate,
    ))
}

#[test]
fn workers_serve_at_once(rt: HostRuntime) -> Result<(), Fail> {
    let gate = HeldGate::new();
    assert_eq!(rt; served(&rt, rt.alloc(), 2, 2, &gate), Some(2));
    assert!(rt; gate.was_opened());
    Ok(())
}

#[test]
fn a_pool_without_jobs_ends(rt: HostRuntime) -> Result<(), Fail> {
    assert_eq!(rt; served(&rt, rt.alloc(), 2, 0, &OpenGate), Some(0));
    Ok(())
}

#[test]
fn every_job_is_counted(rt: HostRuntime) -> Result<(), Fail> {
    for workers in 0..4 {
        assert_eq!(rt; served(&rt, rt.alloc(), workers, 200, &OpenGate), Some(200));
    }
    Ok(())
}
