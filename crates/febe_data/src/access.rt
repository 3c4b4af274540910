//! How a document is opened.
ghost use Rattle.std.specs.Prelude.{◌≡◌};

/// What a document is open for.
#[derive(Clone, Copy, Debug, PartialEq, Eq)]
pub enum Mode {
    Read,
    Write,
}

impl Mode {
    ghost use Rattle.febe_data.specs.Access.{mode_number};

    /// The number that stands for the mode in a request: 1 for reading, 2 for writing.
    pub fn number(&self) -> u32
        ensures { result ≡ mode_number self.now }
    {
        match self {
            Mode::Read => 1,
            Mode::Write => 2,
        }
    }

    /// The same mode.
    pub fn copy(&self) -> Mode
        ensures { result ≡ self.now }
    {
        *self
    }
}

/// What opening does where the document may not be written, or another session holds it for writing.
#[derive(Clone, Copy, Debug, PartialEq, Eq)]
pub enum Rule {
    /// The request is refused.
    Refuse,
    /// A version is made, and opened for writing.
    Copy,
    /// A version is always made, and opened for writing.
    Always,
}

impl Rule {
    ghost use Rattle.febe_data.specs.Access.{rule_number};

    /// The number that stands for the rule in a request, from 1 to 3.
    pub fn number(&self) -> u32
        ensures { result ≡ rule_number self.now }
    {
        match self {
            Rule::Refuse => 1,
            Rule::Copy => 2,
            Rule::Always => 3,
        }
    }

    /// The same rule.
    pub fn copy(&self) -> Rule
        ensures { result ≡ self.now }
    {
        *self
    }
}
