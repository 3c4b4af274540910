//! What gives bytes.
ghost use Rattle.std.specs.Prelude.{ℕ, ◌≡◌, ◌<◌, ◌≤◌, List, Option, length};
ghost use Rattle.green_io.specs.Outside.{IsReadOutcome, OnFailedRead, HasRisen};

/// What came of one read.
#[derive(Clone, Copy, Debug, PartialEq, Eq)]
pub enum ReadAnswer {
    /// So many bytes came, at least one. They stand at the front of the place given.
    Got(usize),
    /// There is no byte left.
    End,
    /// The read failed, and no byte came.
    Failed,
}

/// Bytes that come one piece after another, from anywhere.
///
/// A read that failed may be tried again: the bytes that are left stay.
pub trait Source {
    // The bytes that are left, none where the source does not tell them.
    ghost left: { Self → Option (List ℕ) };

    // How many faults there were, up to the greatest number.
    ghost fault_count: { Self → ℕ };

    /// How many faults there were. Each failed read is one, and the count stops at the greatest number.
    fn faults(&self) -> u64
        ensures { result ≡ fault_count self.now };

    /// Reads some bytes into the front of `into`, as many as the source likes to give at once.
    fn read(&mut self, into: &mut [u8]) -> ReadAnswer
        requires { 0 < length into.old }
        ensures answer { IsReadOutcome result (left self.old) (left self.new) into.new }
        ensures never_falls { fault_count self.old ≤ fault_count self.new }
        ensures failed { OnFailedRead result (HasRisen (fault_count self.old) (fault_count self.new)) };
}
