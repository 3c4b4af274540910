//! Why a request is refused.
ghost use Rattle.std.specs.Prelude.{◌≡◌};

use std::fmt;

/// The refusals, in the order in which they are asked, which is not that of their numbers: the first one whose condition
/// holds is given.
#[derive(Clone, Copy, Debug, PartialEq, Eq)]
pub enum Refusal {
    /// The session has set no account.
    NoAccount,
    /// A document that the request names does not exist.
    NoSuchDocument,
    /// A document that the request names is another account's, and is not published.
    Private,
    /// The session has not opened a document that the request names.
    NotOpen,
    /// The session opened the document that the request would change for reading alone.
    NotOpenForWriting,
    /// The document is of another account.
    NotOwner,
    /// Another session holds the document for writing.
    Conflict,
    /// An address that names no place where the request needs one, or a span whose end is no address.
    BadAddress,
    /// The cuts are not three or four in order.
    BadCuts,
    /// No link has that id.
    NoSuchLink,
    /// A link has the ends 1, 2 and 3 alone.
    NoSuchEnd,
    /// The document, the reply or the runs would pass their bound.
    TooLong,
    /// The history or its contents have reached the limits.
    Full,
    /// The disk failed.
    Disk,
    /// There was no memory left.
    Memory,
}

impl Refusal {
    ghost use Rattle.febe_data.specs.Refusal.{refusal_number};

    /// The number that stands for the refusal in a reply, from 1 to 15.
    pub fn number(&self) -> u8
        ensures { result ≡ refusal_number self.now }
    {
        match self {
            Refusal::NoAccount => 1,
            Refusal::NoSuchDocument => 2,
            Refusal::Private => 15,
            Refusal::NotOpen => 3,
            Refusal::NotOpenForWriting => 4,
            Refusal::NotOwner => 5,
            Refusal::Conflict => 6,
            Refusal::BadAddress => 7,
            Refusal::BadCuts => 8,
            Refusal::NoSuchLink => 9,
            Refusal::NoSuchEnd => 10,
            Refusal::TooLong => 11,
            Refusal::Full => 12,
            Refusal::Disk => 13,
            Refusal::Memory => 14,
        }
    }

    /// The same refusal.
    pub fn copy(&self) -> Refusal
        ensures { result ≡ self.now }
    {
        *self
    }
}
