//! A gate that holds the first job until the second is served.
use crate::Gate;
use std::sync::atomic::AtomicU64;
use std::sync::atomic::Ordering::SeqCst;
use std::thread;

const TURNS: u64 = 10_000_000;

const HELD: u64 = 1;

const OPENS: u64 = 2;

#[derive(Drop)]
pub struct HeldGate {
    second_served: AtomicU64,
    opened: AtomicU64,
}

impl HeldGate {
    pub fn new() -> HeldGate {
        HeldGate {
            second_served: AtomicU64::new(0),
            opened: AtomicU64::new(0),
        }
    }

    /// The first job went on since the second was served, and not since its turns were used up.
    pub fn was_opened(&self) -> bool {
        self.opened.load(SeqCst) == 1
    }
}

impl Gate for HeldGate {
    fn before(&self, job: u64) {
        if job != HELD {
            return;
        }
        for _ in 0..TURNS {
            if self.second_served.load(SeqCst) == 1 {
                self.opened.store(1, SeqCst);
                return;
            }
            thread::yield_now();
        }
    }

    fn after(&self, job: u64) {
        if job == OPENS {
            self.second_served.store(1, SeqCst);
        }
    }
}
