//! The three ends of a link.
ghost use Rattle.std.specs.Prelude.{◌≡◌, Option};
ghost use Rattle.world_rules.specs.Ends.{end_numbered};

/// An end of a link.
#[derive(Clone, Copy, Debug, PartialEq, Eq)]
pub enum End {
    From,
    To,
    Three,
}

impl End {
    /// The end that requests name by the number.
    pub fn numbered(number: u32) -> Option<End>
        ensures { result ≡ end_numbered number }
    {
        match number {
            1 => Some(End::From),
            2 => Some(End::To),
            3 => Some(End::Three),
            _ => None,
        }
    }
}
