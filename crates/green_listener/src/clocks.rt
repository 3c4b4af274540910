//! Where sessions and rounds get their clocks.
use green_io::SystemClock;
use log::Handle;

/// A runtime that makes clocks, each for one thread.
pub trait MakeClock {
    /// A clock of the system, which has not been asked yet. It takes no memory.
    fn clock(&self) -> SystemClock;
}

impl MakeClock for HostRuntime {
    fn clock(&self) -> SystemClock {
        SystemClock::new(*self)
    }
}

impl<R: MakeClock, L> MakeClock for Handle<R, L> {
    fn clock(&self) -> SystemClock {
        self.inner().clock()
    }
}

impl<R: MakeClock> MakeClock for &R {
    fn clock(&self) -> SystemClock {
        (**self).clock()
    }
}
