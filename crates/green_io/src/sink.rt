//! What takes bytes.
ghost use Rattle.std.specs.Prelude.{ℕ, ◌≡◌, ◌<◌, ◌≤◌, List, Option, length};
ghost use Rattle.green_io.specs.Outside.{IsWriteOutcome, OnFailedWrite, HasRisen};

/// What came of one write.
#[derive(Clone, Copy, Debug, PartialEq, Eq)]
pub enum WriteAnswer {
    /// So many bytes were taken, at least one. They are the front of those given.
    Took(usize),
    /// The write failed. A sink that tells what it has taken has taken nothing of these bytes.
    Failed,
}

/// Where bytes go, one piece after another.
pub trait Sink {
    // The bytes that were taken, none where the sink does not tell them.
    ghost taken: { Self → Option (List ℕ) };

    // How many faults there were, up to the greatest number.
    ghost fault_count: { Self → ℕ };

    /// How many faults there were. Each failed write is one, and the count stops at the greatest number.
    fn faults(&self) -> u64
        ensures { result ≡ fault_count self.now };

    /// Takes some bytes from the front of `bytes`, as many as the sink likes to take at once.
    fn write(&mut self, bytes: &[u8]) -> WriteAnswer
        requires { 0 < length bytes.now }
        ensures answer { IsWriteOutcome result (taken self.old) (taken self.new) bytes.now }
        ensures never_falls { fault_count self.old ≤ fault_count self.new }
        ensures failed { OnFailedWrite result (HasRisen (fault_count self.old) (fault_count self.new)) };
}
