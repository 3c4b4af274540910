//! The greeting that a session begins with.
ghost use Rattle.std.specs.Prelude.{◌≡◌};
ghost use Rattle.febe_fields.specs.Scanning.{scan};
ghost use Rattle.febe_feed.specs.inside.Greetings.{greeting_step, all_of_it};

use febe_fields::Scanned;

/// How many bytes the greeting has.
pub(crate) const GREETING_LENGTH: usize = 3;

/// Whether the greeting `P0~` is a prefix of the bytes, or they are a proper prefix of it, or where they are neither.
#[tactic(auto, unfolding(febe_fields::specs::Scanning::scan))]
pub(crate) fn scan_greeting(bytes: &[u8]) -> Scanned
    ensures { result ≡ scan greeting_step all_of_it bytes.now }
{
    match bytes {
        [] | [b'P'] | [b'P', b'0'] => Scanned::Incomplete,
        [b'P', b'0', b'~', ..] => Scanned::Complete {
            used: GREETING_LENGTH,
        },
        [b'P', b'0', ..] => Scanned::Bad { at: 2 },
        [b'P', ..] => Scanned::Bad { at: 1 },
        _ => Scanned::Bad { at: 0 },
    }
}
