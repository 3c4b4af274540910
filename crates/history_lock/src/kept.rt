//! What a value has to be to lie behind the lock.
ghost use Rattle.std.specs.Prelude.{◌≡◌, ◌^◌, ◌<◌, ℕ, List, length};
ghost use Rattle.history_lock.specs.Histories.{Grows};

use std::alloc::Global;

/// What came of a play: its answer, and the number after it.
#[derive(Drop)]
pub struct Played<A> {
    pub answer: A,
    pub number: u64,
}

/// A value with a history.
pub trait Kept {
    type Job;

    type Answer;
    /// What contracts see as an entry of the history.
    type Entry;

    // The history.
    ghost history: { Self → List Self.Entry };

    // The number to which an entry belongs.
    ghost owner: { Self.Entry → ℕ };

    // Numbers that no play changes.
    ghost fixed: { Self → List ℕ };

    // Numbers that a play may change.
    ghost marks: { Self → List ℕ };

    // What a play does: of the fixed numbers, the history, the number, the job, the answer, the number and the history after it, and the marks before and after it.
    ghost plays: { List ℕ → List Self.Entry → ℕ → Self.Job → Self.Answer → ℕ → List Self.Entry → List ℕ → List ℕ → Type 0 };

    /// The length of the history.
    fn count(&self) -> u64
        ensures { (result ≡ length (history self.now)) × (result < 2 ^ 63) };

    /// Does the job for this number. One entry comes to the history at most.
    fn play(&mut self, alloc: Global, number: u64, job: Self::Job) -> Played<Self::Answer>
        ensures fixed { fixed self.new ≡ fixed self.old }
        ensures grows { Grows owner number (history self.old) result.number (history self.new) }
        ensures plays { plays (fixed self.old) (history self.old) number job result.answer result.number (history self.new) (marks self.old) (marks self.new) };
}
