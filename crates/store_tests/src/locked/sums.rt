//! A value whose jobs are numbers to add. An entry is the number of a pass and the job.
ghost use Rattle.std.specs.Prelude.{◌≡◌, ◌≢◌, ◌⊎◌, ◌+◌, ◌^◌, ◌<◌, ◌≤◌, [], ◌∷◌, ◌++◌, All, vec_len};

use history_lock::{Kept, Played};
use std::alloc::Global;

// No more entries than this come in.
const MOST: usize = 1_000_000;

#[derive(Drop)]
pub struct Sums {
    sum: u64,
    last: u64,
    entries: Vec<(u64, u64)>,
    ghost few: { vec_len entries ≤ 1000000 },
    ghost no_later: { All (λ entry. entry.0 ≤ last) entries.items },
}

impl Sums {
    pub fn new(alloc: Global) -> Sums {
        Sums {
            sum: 0,
            last: 0,
            entries: Vec::new(alloc),
        }
    }

    pub fn sum(&self) -> u64 {
        self.sum
    }

    pub fn entries(&self) -> &[(u64, u64)] {
        self.entries.as_slice()
    }
}

// The number after a play that adds an entry.
fn own_number(number: u64, last: u64) -> u64
    requires { last + 1 < 2 ^ 64 }
    ensures new { number ≡ 0 → result ≡ last + 1 }
    ensures old { number ≢ 0 → result ≡ number }
{
    if number == 0 { last + 1 } else { number }
}

impl Kept for Sums {
    type Job = u64;

    type Answer = u64;

    type Entry = (u64, u64);

    ghost history = { λ sums. sums.entries.items };

    ghost owner = { λ entry. entry.0 };

    ghost fixed = { λ _. [] };

    ghost marks = { λ _. [] };

    ghost plays = { λ _ before _ job _ number after _ _. (after ≡ before) ⊎ (after ≡ before ++ (number, job) ∷ []) };

    fn count(&self) -> u64 {
        self.entries.len() as u64
    }

    fn play(&mut self, _alloc: Global, number: u64, job: u64) -> Played<u64> {
        let refused = Played {
            answer: self.sum,
            number,
        };
        if self.entries.len() >= MOST || self.last == u64::MAX {
            return refused;
        }
        let own = own_number(number, self.last);
        let Ok(()) = self.entries.push((own, job)) else {
            return refused;
        };
        self.last = self.last.max(own);
        self.sum = self.sum.wrapping_add(job);
        Played {
            answer: self.sum,
            number: own,
        }
    }
}
