//! A clock in memory.
ghost use Rattle.std.specs.Prelude.{◌≡◌, Some};
ghost use Rattle.green_fakes.specs.ClockView.{answer_at};

use green_io::Clock;
use std::marker::Model;

/// A clock whose answers are known beforehand: each is greater than the one before it by the same step, up to the
/// greatest number.
///
/// Contracts see its next answer and the step.
#[derive(Drop)]
pub struct MemoryClock {
    next: u64,
    step: u64,
}

impl Model for MemoryClock {
    ghost use Rattle.green_fakes.specs.ClockView.{ClockView};

    ghost Value = { ClockView };

    ghost view = { λ clock. record { next = clock.next; step = clock.step } };
}

impl MemoryClock {
    /// A clock whose first answer is `start`. It takes no memory.
    pub fn new(start: u64, step: u64) -> MemoryClock
        ensures { result ≡ record { next = start; step = step } }
    {
        MemoryClock { next: start, step }
    }
}

impl Clock for MemoryClock {
    ghost coming = { λ clock. Some (answer_at clock) };

    fn now(&mut self) -> u64 {
        let answer = self.next;
        self.next = answer.saturating_add(self.step);
        answer
    }
}
