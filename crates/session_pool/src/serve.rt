//! What is done with each job.
ghost use Rattle.std.specs.Prelude.{◌≡◌, ◌+◌, ℕ};
ghost use Rattle.history_lock.specs.Histories.{StartsWith};
ghost use Rattle.session_pool.specs.Counts.{saturated, raised};

use crate::passes::IssuePasses;
use std::alloc::Global;
use std::sync::Wait;

/// Serves jobs over a lock. All workers share it, and each keeps a tally of what it has served.
pub trait Serve<L: IssuePasses, J> {
    type Tally;

    // How many jobs a tally tells of, or the greatest number of 64 bits.
    ghost count: { Self.Tally → ℕ };

    /// A tally of no job. It takes no memory.
    fn tally(&self) -> Self::Tally
        ensures { count result ≡ 0 };

    /// Serves a job with a new pass of the lock. It may wait.
    fn serve<R: Wait>(
        &self,
        rt: &R,
        alloc: Global,
        lock: &L,
        pass: &mut L::Pass,
        job: J,
        tally: &mut Self::Tally,
    )
        requires lock { L.is_of lock.now pass.old }
        requires new { (L.knows pass.old).number ≡ 0 }
        ensures same_lock { L.is_of lock.now pass.new }
        ensures seen { StartsWith (L.knows pass.new).seen (L.knows pass.old).seen }
        ensures counted { count tally.new ≡ raised (count tally.old) };

    /// Adds another tally's jobs to this one. It takes no memory.
    fn add(&self, into: &mut Self::Tally, other: Self::Tally)
        ensures { count into.new ≡ saturated (count into.old + count other) };

    /// How many jobs a tally tells of. It takes no memory.
    fn served(&self, tally: &Self::Tally) -> u64
        ensures { result ≡ count tally.now };
}
