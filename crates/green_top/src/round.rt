//! Background steps behind a lock.
ghost use Rattle.history_lock.specs.Passes.{known, IsPassOf};
ghost use Rattle.green_top.specs.Round.{HasMadeRound};

use crate::jobs::timed;
use green_io::{Clock, Disk};
use green_store::{HouseJob, Housed, StepAnswer};
use history_lock::{HistoryLock, Pass};
use std::alloc::Global;
use std::sync::Wait;

/// What a background round came to.
#[derive(Clone, Copy, Debug, PartialEq, Eq)]
pub enum Round {
    /// One step of the balancer was made in a tree.
    Balanced,
    /// The pages stand for all kept entries.
    Flushed,
    /// The nodes that no tree reaches are gone.
    Swept,
    /// Nothing was to be put right.
    Idle,
    /// The disk failed while pages were written.
    Disk,
    /// There was no memory for what is to be put right.
    Memory,
}

/// Makes one background step behind the lock, once it has it. Whatever comes of it, sessions go on as if it had not been made.
/// It asks the clock for the step's moment before it waits.
pub fn background_round<R: Wait, C: Clock, D: Disk>(
    rt: &R,
    alloc: Global,
    lock: &HistoryLock<Housed<D>>,
    pass: &mut Pass<Housed<D>>,
    clock: &mut C,
) -> Round
    requires { IsPassOf lock.now pass.old }
    ensures same_lock { IsPassOf lock.now pass.new }
    ensures round { HasMadeRound (known pass.old) result (known pass.new) (C.coming clock.old) (C.coming clock.new) }
{
    let job = timed(clock, HouseJob::Background);
    let answer = lock.act(rt, alloc, pass, job).answer;
    match answer {
        StepAnswer::Balanced => Round::Balanced,
        StepAnswer::Flushed => Round::Flushed,
        StepAnswer::Swept => Round::Swept,
        StepAnswer::Idle => Round::Idle,
        StepAnswer::Disk => Round::Disk,
        StepAnswer::Memory => Round::Memory,
        _ => unreachable!(),
    }
}
