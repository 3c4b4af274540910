//! The smallest pieces of fields, each scanned byte by byte.
ghost use Rattle.std.specs.Prelude.{◌≡◌, ◌≤◌};
ghost use Rattle.febe_fields.specs.Leaves.{number_step, byte_step, first_step, digits_step, choice_step, zero_count_step, no_zeros_step, zeros_step, first_place_step, next_place_step, place_step};

/// The most places that may be written behind the first one, where none is counted.
const MOST_MORE: u32 = 23;

/// The byte behind a number.
#[derive(Clone, Copy, Debug, PartialEq, Eq)]
pub enum Terminator {
    Tilde,
    /// Behind the length of a text.
    Colon,
}

impl Terminator {
    ghost use Rattle.febe_fields.specs.Leaves.{terminator_byte};

    /// The byte itself.
    fn byte(self) -> u8
        ensures { result ≡ terminator_byte self }
    {
        match self {
            Terminator::Tilde => b'~',
            Terminator::Colon => b':',
        }
    }
}

/// What the next byte is looked at as.
#[derive(Clone, Copy, Debug, PartialEq, Eq)]
pub enum Leaf {
    /// This very byte.
    Byte {
        byte: u8,
    },
    /// The first digit of a number.
    First {
        most: u32,
        end: Terminator,
    },
    /// A further digit of a number that is not 0, or the byte that ends it.
    Digits {
        number: u32,
        most: u32,
        end: Terminator,
    },
    /// The digit 1, or one of so many behind it.
    Choice {
        more: u8,
    },
    /// The first digit of the count of places that are 0.
    ZeroCount,
    /// What follows the count 0.
    NoZeros,
    /// A further digit of a count that is not 0, or the dot behind it.
    Zeros {
        count: u32,
    },
    /// The first digit of the first written place, behind which so many more may come.
    FirstPlace {
        more: u32,
    },
    /// The first digit of a later place.
    NextPlace {
        more: u32,
    },
    /// The dot behind a place that is 0.
    ZeroPlace {
        more: u32,
    },
    /// A further digit of a place, or what ends it.
    Place {
        number: u32,
        more: u32,
    },
    /// A byte of a text, behind which so many more come.
    Text {
        more: u32,
    },
}

/// What a byte makes of a leaf.
#[derive(Clone, Copy, Debug, PartialEq, Eq)]
pub enum LeafStep {
    Goes(Leaf),
    /// The leaf ends here. A number that was read is told.
    Ends { number: u32 },
    Fails,
}

/// The number with one more digit, unless that passes the bound.
fn number_step(number: u32, most: u32, digit: u8) -> Option<u32>
    requires { (48 ≤ digit) × (digit ≤ 57) }
    ensures { result ≡ number_step number most digit }
{
    let next = u64::from(number) * 10 + u64::from(digit - b'0');
    if next > u64::from(most) {
        return None;
    }
    Some(next as u32)
}

fn byte_step(wanted: u8, byte: u8) -> LeafStep
    ensures { result ≡ byte_step wanted byte }
{
    if byte == wanted {
        return LeafStep::Ends { number: 0 };
    }
    LeafStep::Fails
}

fn first_step(most: u32, end: Terminator, byte: u8) -> LeafStep
    ensures { result ≡ first_step most end byte }
{
    match byte {
        b'0' => LeafStep::Goes(Leaf::Byte { byte: end.byte() }),
        b'1'..=b'9' => match number_step(0, most, byte) {
            Some(number) => LeafStep::Goes(Leaf::Digits { number, most, end }),
            None => LeafStep::Fails,
        },
        _ => LeafStep::Fails,
    }
}

fn digits_step(number: u32, most: u32, end: Terminator, byte: u8) -> LeafStep
    ensures { result ≡ digits_step number most end byte }
{
    match byte {
        b'0'..=b'9' => match number_step(number, most, byte) {
            Some(number) => LeafStep::Goes(Leaf::Digits { number, most, end }),
            None => LeafStep::Fails,
        },
        _ if byte == end.byte() => LeafStep::Ends { number },
        _ => LeafStep::Fails,
    }
}

fn choice_step(more: u8, byte: u8) -> LeafStep
    ensures { result ≡ choice_step more byte }
{
    match byte {
        b'1'..=b'9' if byte - b'1' <= more => LeafStep::Goes(Leaf::Byte { byte: b'~' }),
        _ => LeafStep::Fails,
    }
}

fn zero_count_step(byte: u8) -> LeafStep
    ensures { result ≡ zero_count_step byte }
{
    match byte {
        b'0' => LeafStep::Goes(Leaf::NoZeros),
        b'1'..=b'9' => LeafStep::Goes(Leaf::Zeros {
            count: u32::from(byte - b'0'),
        }),
        _ => LeafStep::Fails,
    }
}

fn no_zeros_step(byte: u8) -> LeafStep
    ensures { result ≡ no_zeros_step byte }
{
    match byte {
        b'~' => LeafStep::Ends { number: 0 },
        b'.' => LeafStep::Goes(Leaf::FirstPlace { more: MOST_MORE }),
        _ => LeafStep::Fails,
    }
}

fn zeros_step(count: u32, byte: u8) -> LeafStep
    ensures { result ≡ zeros_step count byte }
{
    match byte {
        b'0'..=b'9' => match number_step(count, MOST_MORE, byte) {
            Some(count) => LeafStep::Goes(Leaf::Zeros { count }),
            None => LeafStep::Fails,
        },
        b'.' => LeafStep::Goes(Leaf::FirstPlace {
            more: MOST_MORE.saturating_sub(count),
        }),
        _ => LeafStep::Fails,
    }
}

fn first_place_step(more: u32, byte: u8) -> LeafStep
    ensures { result ≡ first_place_step more byte }
{
    match byte {
        b'1'..=b'9' => LeafStep::Goes(Leaf::Place {
            number: u32::from(byte - b'0'),
            more,
        }),
        _ => LeafStep::Fails,
    }
}

fn next_place_step(more: u32, byte: u8) -> LeafStep
    ensures { result ≡ next_place_step more byte }
{
    match byte {
        b'0' if more > 0 => LeafStep::Goes(Leaf::ZeroPlace { more: more - 1 }),
        b'1'..=b'9' => LeafStep::Goes(Leaf::Place {
            number: u32::from(byte - b'0'),
            more,
        }),
        _ => LeafStep::Fails,
    }
}

fn place_step(number: u32, more: u32, byte: u8) -> LeafStep
    ensures { result ≡ place_step number more byte }
{
    match byte {
        b'0'..=b'9' => match number_step(number, u32::MAX, byte) {
            Some(number) => LeafStep::Goes(Leaf::Place { number, more }),
            None => LeafStep::Fails,
        },
        b'.' if more > 0 => LeafStep::Goes(Leaf::NextPlace { more: more - 1 }),
        b'~' => LeafStep::Ends { number: 0 },
        _ => LeafStep::Fails,
    }
}

impl Leaf {
    ghost use Rattle.febe_fields.specs.Leaves.{leaf_step};

    /// What this byte makes of the leaf.
    pub fn step(self, byte: u8) -> LeafStep
        ensures { result ≡ leaf_step self byte }
    {
        match self {
            Leaf::Byte { byte: wanted } => byte_step(wanted, byte),
            Leaf::First { most, end } => first_step(most, end, byte),
            Leaf::Digits { number, most, end } => digits_step(number, most, end, byte),
            Leaf::Choice { more } => choice_step(more, byte),
            Leaf::ZeroCount => zero_count_step(byte),
            Leaf::NoZeros => no_zeros_step(byte),
            Leaf::Zeros { count } => zeros_step(count, byte),
            Leaf::FirstPlace { more } => first_place_step(more, byte),
            Leaf::NextPlace { more } => next_place_step(more, byte),
            Leaf::ZeroPlace { more } => match byte {
                b'.' => LeafStep::Goes(Leaf::NextPlace { more }),
                _ => LeafStep::Fails,
            },
            Leaf::Place { number, more } => place_step(number, more, byte),
            Leaf::Text { more: 0 } => LeafStep::Ends { number: 0 },
            Leaf::Text { more } => LeafStep::Goes(Leaf::Text { more: more - 1 }),
        }
    }
}
