//! The answers of clocks.

use green_fakes::MemoryClock;
use green_io::{Clock, SystemClock};
use std::process::Abort;

/// A clock's next answer.
fn ask<C: Clock>(clock: &mut C) -> u64 {
    clock.now()
}

/// Checks the first answers of a clock in memory.
fn check_answers(rt: &impl Abort, start: u64, step: u64, answers: [u64; 3]) {
    let mut clock = MemoryClock::new(start, step);
    for wanted in answers {
        assert_eq!(rt; ask(&mut clock), wanted, "from {start} by {step}");
    }
}

#[test]
fn first_answers_in_memory(rt: HostRuntime) {
    for (start, step, answers) in [
        (1000, 1, [1000, 1001, 1002]),
        (7, 0, [7, 7, 7]),
        (u64::MAX - 3, 2, [u64::MAX - 3, u64::MAX - 1, u64::MAX]),
        (5, u64::MAX, [5, u64::MAX, u64::MAX]),
    ] {
        check_answers(&rt, start, step, answers);
    }
}

// It may go back, so all that is asked is that each answer is one of this age.
#[test]
fn the_time_of_the_system(rt: HostRuntime) {
    let mut clock = SystemClock::new(rt);
    assert!(rt; ask(&mut clock) > 1_700_000_000_000);
    assert!(rt; ask(&mut clock) > 1_700_000_000_000);
}
