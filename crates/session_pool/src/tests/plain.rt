//! A value with no entries behind the lock, jobs that are numbers, and a tally that counts them.
ghost use Rattle.std.specs.Prelude.{◌≡◌, ◌≤◌, ◌^◌, ◌-◌, [], refl};

use crate::{Accept, IssuePasses, Serve};
use history_lock::{HistoryLock, Kept, Played};
use std::alloc::Global;
use std::sync::Wait;

/// Answers each job with the job.
#[derive(Drop)]
pub struct Plain;

impl Kept for Plain {
    type Job = u64;

    type Answer = u64;

    type Entry = u64;

    ghost history = { λ _. [] };

    ghost owner = { λ entry. entry };

    ghost fixed = { λ _. [] };

    ghost marks = { λ _. [] };

    ghost plays = { λ _ _ _ job answer _ _ _ _. answer ≡ job };

    fn count(&self) -> u64 {
        0
    }

    fn play(&mut self, _alloc: Global, number: u64, job: u64) -> Played<u64> {
        Played {
            answer: job,
            number,
        }
    }
}

/// So many jobs, from 1 on.
#[derive(Drop)]
pub struct Numbers {
    given: u64,
    most: u64,
    ended: bool,
    ghost few: { given ≤ most },
}

impl Numbers {
    pub fn up_to(most: u64) -> Numbers
        ensures { result.given ≡ 0 }
    {
        Numbers {
            given: 0,
            most,
            ended: false,
        }
    }
}

impl Accept<u64> for Numbers {
    ghost given_count = { λ numbers. numbers.given };

    ghost has_ended = { λ numbers. numbers.ended };

    fn given(&self) -> u64 {
        self.given
    }

    fn ended(&self) -> bool {
        self.ended
    }

    fn accept<R: Wait>(&mut self, _rt: &R, _alloc: Global) -> Option<u64> {
        if self.given == self.most {
            self.ended = true;
            return None;
        }
        self.given += 1;
        Some(self.given)
    }
}

/// Makes one play for each job.
#[derive(Clone, Copy)]
pub struct Players;

impl Serve<HistoryLock<Plain>, u64> for Players {
    type Tally = u64;

    ghost count = { λ tally. tally };

    fn tally(&self) -> u64 {
        0
    }

    fn serve<R: Wait>(
        &self,
        rt: &R,
        alloc: Global,
        lock: &HistoryLock<Plain>,
        pass: &mut <HistoryLock<Plain> as IssuePasses>::Pass,
        job: u64,
        tally: &mut u64,
    ) {
        lock.act(rt, alloc, pass, job);
        *tally = tally.saturating_add(1);
    }

    fn add(&self, into: &mut u64, other: u64) {
        *into = into.saturating_add(other);
    }

    fn served(&self, tally: &u64) -> u64 {
        *tally
    }
}
