//! Runs of content, and where two documents share it.
ghost use Rattle.std.specs.Prelude.{◌≡◌};

use tumbler::Tumbler;

/// Bytes that follow each other in one document's content.
#[derive(Clone, Copy, Debug)]
pub struct Run {
    /// The document whose rows show it: the one that a spec named.
    pub origin: Tumbler,
    /// The document into which the bytes were first put.
    pub content: Tumbler,
    /// Which of that document's bytes comes first. They are counted from 1.
    pub first: u32,
    /// How many bytes there are, and never none.
    pub length: u32,
}

impl Run {
    /// The same run.
    pub fn copy(&self) -> Run
        ensures { result ≡ self.now }
    {
        *self
    }
}

/// Text positions of two documents that follow each other and have the same content, pair by pair.
#[derive(Clone, Copy, Debug, PartialEq, Eq)]
pub struct Diagonal {
    /// The first position on the left: the x of the V-address `1.x`.
    pub left: u32,
    /// The first position on the right.
    pub right: u32,
    /// The number of pairs.
    pub length: u32,
}

impl Diagonal {
    /// The same diagonal.
    pub fn copy(&self) -> Diagonal
        ensures { result ≡ self.now }
    {
        *self
    }
}
