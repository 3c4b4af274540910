//! The lock, as far as the pool has to know it.
ghost use Rattle.std.specs.Prelude.{◌≡◌, ℕ};
ghost use Rattle.history_lock.specs.declared.view.View.{View};
ghost use Rattle.history_lock.specs.Passes.{newcomer, HasTakenIn};

use history_lock::{HistoryLock, Kept, Pass};

/// A lock with passes. It stands for a `HistoryLock`, since a closure over one gets no proof where its value's type is a parameter.
pub trait IssuePasses {
    /// What contracts see as an entry of the history.
    type Entry;

    type Pass;

    // The number to which an entry belongs.
    ghost owner: { Self.Entry → ℕ };

    // The pass is of this lock.
    ghost is_of: { Self → Self.Pass → Type 0 };

    // What the pass knows.
    ghost knows: { Self.Pass → View Self.Entry };

    /// Another pass, with no number, which has seen what the given one has. It takes no memory.
    fn another(&self, from: &mut Self::Pass) -> Self::Pass
        requires { is_of self.now from.old }
        ensures made { is_of self.now result × (knows result ≡ newcomer (knows from.old).seen (knows from.old).fixed) }
        ensures same { is_of self.now from.new × (knows from.new ≡ knows from.old) };

    /// Ends a pass. The other keeps its number and entries, and has then seen the history. It takes no memory.
    fn end(&self, into: &mut Self::Pass, pass: Self::Pass)
        requires into { is_of self.now into.old }
        requires pass { is_of self.now pass }
        ensures same_lock { is_of self.now into.new }
        ensures taken_in { HasTakenIn owner (knows into.old) (knows pass) (knows into.new) };
}

impl<T: Kept> IssuePasses for HistoryLock<T> {
    ghost use Rattle.history_lock.specs.Passes.{known, IsPassOf};

    type Entry = T::Entry;

    type Pass = Pass<T>;

    ghost owner = { T.owner };

    ghost is_of = { λ lock pass. IsPassOf lock pass };

    ghost knows = { λ pass. known pass };

    fn another(&self, from: &mut Pass<T>) -> Pass<T> {
        self.new_pass(from)
    }

    fn end(&self, into: &mut Pass<T>, pass: Pass<T>) {
        self.end_pass(into, pass)
    }
}
