//! Where jobs come from.
ghost use Rattle.std.specs.Prelude.{◌≡◌, ℕ, Bool, true, MatchOption};
ghost use Rattle.session_pool.specs.Counts.{raised};

use std::alloc::Global;
use std::sync::Wait;

/// A source of jobs.
pub trait Accept<J> {
    // How many jobs it has given, or the greatest number of 64 bits.
    ghost given_count: { Self → ℕ };

    // It has given no job where one was asked for.
    ghost has_ended: { Self → Bool };

    /// How many jobs it has given. It takes no memory.
    fn given(&self) -> u64
        ensures { result ≡ given_count self.now };

    /// Whether it has ended. It takes no memory.
    fn ended(&self) -> bool
        ensures { result ≡ has_ended self.now };

    /// The next job, or `None` at the end. It may wait for one.
    fn accept<R: Wait>(&mut self, rt: &R, alloc: Global) -> Option<J>
        ensures given { MatchOption result (given_count self.new ≡ given_count self.old) (λ _. given_count self.new ≡ raised (given_count self.old)) }
        ensures ended { MatchOption result (has_ended self.new ≡ true) (λ _. has_ended self.new ≡ has_ended self.old) };
}
