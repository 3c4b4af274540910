//! Which calls fail.
ghost use Rattle.std.specs.Prelude.{◌≡◌};
ghost use Rattle.green_fakes.specs.MemoryView.{one_more};
ghost use Rattle.green_fakes.specs.DiskView.{turn_of};

/// What becomes of a call.
#[derive(Clone, Copy, Debug, PartialEq, Eq)]
pub(crate) enum Turn {
    /// It succeeds, where there is memory.
    Succeeds,
    /// It fails, since it is listed.
    Fails,
    /// It fails, since there were as many calls as can be counted.
    Over,
}

/// Counts one more call, and says what becomes of it.
pub(crate) fn next_turn(calls: &mut u64, failing: &[u64]) -> Turn
    ensures turn { result ≡ turn_of calls.old failing.now }
    ensures counted { calls.new ≡ one_more calls.old }
{
    if *calls == u64::MAX {
        return Turn::Over;
    }
    *calls += 1;
    if failing.contains(&*calls) {
        return Turn::Fails;
    }
    Turn::Succeeds
}
