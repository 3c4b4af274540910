//! The system's clock.
ghost use Rattle.std.specs.Prelude.{None};

use crate::clock::Clock;
use std::time::{SystemTime, UNIX_EPOCH};

/// The clock of the system. It tells nothing of its answers.
///
/// Where the system does not tell the time, or one before 1970, it gives its last answer again, and 0 at first.
#[derive(Drop)]
pub struct SystemClock {
    rt: HostRuntime,
    last: u64,
}

impl SystemClock {
    /// It does not read the time yet, and takes no memory.
    pub fn new(rt: HostRuntime) -> SystemClock {
        SystemClock { rt, last: 0 }
    }
}

// The milliseconds since 1970, where the system tells them. As many as 64 bits have room for at most.
fn millis(rt: &HostRuntime) -> Option<u64> {
    let Ok(time) = SystemTime::now(rt) else {
        return None;
    };
    let Ok(since) = time.duration_since(UNIX_EPOCH) else {
        return None;
    };
    Some(since.as_millis().min(u64::MAX as u128) as u64)
}

impl Clock for SystemClock {
    ghost coming = { λ _. None };

    fn now(&mut self) -> u64 {
        self.last = millis(&self.rt).unwrap_or(self.last);
        self.last
    }
}
