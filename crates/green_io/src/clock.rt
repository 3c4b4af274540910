//! What tells the time.
ghost use Rattle.std.specs.Prelude.{ℕ, Option};
ghost use Rattle.green_io.specs.Clock.{IsNext};

/// Tells the time, once for each call.
pub trait Clock {
    // The answers that are still to come, of which 0 has the next, where the clock tells them.
    ghost coming: { Self → Option (ℕ → ℕ) };

    /// How many milliseconds have passed since the year 1970 began. It never fails, and may go back.
    fn now(&mut self) -> u64
        ensures { IsNext result (coming self.old) (coming self.new) };
}
