//! A value without entries, whose plays last until a gate opens.
ghost use Rattle.std.specs.Prelude.{◌≡◌, ℕ, [], ◌∷◌};

use history_lock::{Kept, Played};
use std::alloc::Global;
use std::sync::Arc;
use std::sync::atomic::AtomicU64;
use std::sync::atomic::Ordering::SeqCst;

#[derive(Drop)]
pub struct Gated {
    pub entered: Arc<AtomicU64>,
    pub gate: Arc<AtomicU64>,
}

impl Kept for Gated {
    type Job = u64;

    type Answer = u64;

    type Entry = u64;

    ghost history = { λ _. [] };

    ghost owner = { λ entry. entry };

    ghost fixed = { λ _. [] };

    ghost marks = { λ _. [] };

    ghost plays = { λ _ _ _ job answer _ _ _ _. answer ≡ job };

    fn count(&self) -> u64 {
        0
    }

    fn play(&mut self, _alloc: Global, number: u64, job: u64) -> Played<u64> {
        self.entered.store(1, SeqCst);
        for _ in 0..u64::MAX {
            if self.gate.load(SeqCst) != 0 {
                break;
            }
        }
        Played {
            answer: job,
            number,
        }
    }
}
