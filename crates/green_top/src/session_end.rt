//! How a session ends.

/// How a session ended, and what the program says of it.
#[derive(Clone, Copy, Debug, PartialEq, Eq)]
pub enum SessionEnd {
    /// A quit was answered.
    Quit,
    /// The input ended before its first byte or between requests.
    End,
    /// The byte at this offset can't stand there.
    Malformed { at: u64 },
    /// The input ended within the greeting or a request, after so many bytes.
    Truncated { at: u64 },
    /// The source failed.
    ReadFault,
    /// The sink failed.
    WriteFault,
    /// There was no memory left.
    Memory,
    /// As many bytes as a session may give were read, and another read was needed.
    Budget,
    /// Each session number is taken, so no session began.
    NoNumber,
}

impl SessionEnd {
    ghost use Rattle.std.specs.Prelude.{◌≡◌};
    ghost use Rattle.green_top.specs.Batch.{status_of, place_of};

    /// The status that a program ends with.
    pub fn status(self) -> u8
        ensures { result ≡ status_of self }
    {
        match self {
            SessionEnd::Quit | SessionEnd::End => 0,
            SessionEnd::Malformed { .. } => 3,
            SessionEnd::Truncated { .. } => 4,
            SessionEnd::ReadFault => 5,
            SessionEnd::WriteFault => 6,
            SessionEnd::Memory => 9,
            SessionEnd::Budget => 10,
            SessionEnd::NoNumber => 11,
        }
    }

    /// The offset in the input that the end names, or 0.
    pub fn place(self) -> u64
        ensures { result ≡ place_of self }
    {
        match self {
            SessionEnd::Malformed { at } | SessionEnd::Truncated { at } => at,
            _ => 0,
        }
    }
}
