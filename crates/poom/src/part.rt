//! The two parts of a document.
ghost use Rattle.std.specs.Prelude.{◌≡◌};
ghost use Rattle.poom.specs.Laid.{part_number};

/// A part of a document: its text stands at `1.1` and on, its links at `2.1` and on.
#[derive(Clone, Copy, Debug, PartialEq, Eq)]
pub enum Part {
    Text,
    Links,
}

impl Part {
    /// The first place of the addresses in this part.
    pub fn number(self) -> u32
        ensures { result ≡ part_number self }
    {
        match self {
            Part::Text => 1,
            Part::Links => 2,
        }
    }
}
