//! What comes behind the number of a reply.
ghost use Rattle.std.specs.Prelude.{◌≡◌};
ghost use Rattle.febe_reply.specs.inside.ReplyMachine.{payload_seen, payload_of};

use febe_fields::Field;

/// What comes behind the number of a reply.
#[derive(Clone, Copy, Debug, PartialEq, Eq)]
pub enum Payload {
    Fields { fields: &'static [Field] },
    /// A list of items.
    Items,
    /// A list of diagonals.
    Diagonals,
}

/// The payload behind this number, where there is such a reply.
pub(crate) fn payload_of(number: u32) -> Option<Payload>
    ensures { payload_seen result ≡ payload_of number }
{
    let fields: &'static [Field] = match number {
        0 | 2 | 3 | 12 | 16 | 34 | 36 | 40 => &[],
        1 => &[Field::Spans],
        5 => return Some(Payload::Items),
        10 => return Some(Payload::Diagonals),
        11 | 13 | 27 | 35 => &[Field::Tumbler],
        14 => &[Field::Span],
        18 => &[Field::Specs],
        22 | 30 | 31 => &[Field::Tumblers],
        28 => &[Field::Specs, Field::Specs, Field::Specs],
        29 => &[Field::Number],
        _ => return None,
    };
    Some(Payload::Fields { fields })
}
