//! Why the server does not serve, or no longer.

use green_store::OpenFault;
use server_words::WordsFault;
use tumbler::Memory;

/// Why the server ends before it has served all.
#[derive(Clone, Copy, Debug, PartialEq, Eq)]
pub(crate) enum Refusal {
    /// The words are not the form of the program.
    Usage,
    /// The store could not be opened.
    Closed(OpenFault),
    /// The address could not be listened on, or not any longer.
    NotListening,
}

impl Refusal {
    /// The status that the program ends with.
    pub(crate) fn status(self) -> u8 {
        match self {
            Refusal::Usage => 2,
            Refusal::Closed(OpenFault::Disk) => 7,
            Refusal::Closed(OpenFault::Damaged { at: _ }) => 8,
            Refusal::Closed(OpenFault::Memory) => 9,
            Refusal::NotListening => 12,
        }
    }
}

impl From<Memory> for Refusal {
    fn from(_refused: Memory) -> Refusal {
        Refusal::Closed(OpenFault::Memory)
    }
}

impl From<OpenFault> for Refusal {
    fn from(fault: OpenFault) -> Refusal {
        Refusal::Closed(fault)
    }
}

impl From<WordsFault> for Refusal {
    fn from(fault: WordsFault) -> Refusal {
        match fault {
            WordsFault::Usage => Refusal::Usage,
            WordsFault::Memory => Refusal::Closed(OpenFault::Memory),
        }
    }
}
