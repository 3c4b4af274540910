//! Replies scanned byte by byte, with nothing kept but what is to come.
ghost use Rattle.std.specs.Prelude.{◌≡◌, ◌≤◌};
ghost use Rattle.febe_fields.specs.Leaves.{number_step};
ghost use Rattle.febe_fields.specs.Machine.{outcome_of as fields_outcome, state_of as fields_state};
ghost use Rattle.febe_fields.specs.Scanning.{scan};
ghost use Rattle.febe_reply.specs.declared.scan.ReplyScanner.TheVariants as scanners;
ghost use Rattle.febe_reply.specs.inside.ReplyMachine.{behind_of, state_of, outcome_of, most_of, may_be_zero, items_next, diagonals_next, number_ended, number_goes, number_begins, number_goes_on, item_goes, item_opened, address_step, begun, behind_next, first_digit, second_digit, at_start, reply_step};

use crate::payload::{Payload, payload_of};
use febe_data::bounds::MOST_ITEMS;
use febe_fields::{Field, Progress, Scanned, Scanner, start};

/// What a number is read for.
#[derive(Clone, Copy, Debug, PartialEq, Eq)]
pub enum NumberRole {
    /// It says why a request was refused, from 1 to 15.
    Refusal,
    /// So many items come.
    Items,
    /// So many diagonals come.
    Diagonals,
    /// It is the left text position of a diagonal, from 1 on. So many diagonals come behind it.
    Left { more: u32 },
    /// It is the right text position, from 1 on.
    Right { more: u32 },
    /// It is the length of a diagonal.
    Length { more: u32 },
}

/// Where in a reply a scan is.
#[derive(Clone, Copy, Debug, PartialEq, Eq)]
pub enum ReplyScanner {
    Start,
    /// One digit of the reply's number was read, behind which this comes.
    OneDigit { number: u32, payload: Payload },
    /// A 4 was read, which begins the number of a reply and is none.
    Four,
    /// Two digits were read.
    TwoDigits { payload: Payload },
    Fields { scanner: Scanner },
    /// A number begins.
    Number { role: NumberRole },
    /// The number 0 was read, and its tilde is to come.
    Zero { role: NumberRole },
    /// Digits of a number above 0 were read.
    Digits { number: u32, role: NumberRole },
    /// An item begins, behind which so many more come.
    Item { more: u32 },
    /// Within an item.
    InItem { scanner: Scanner, more: u32 },
    /// So many bytes were read of those that stand before a text position.
    Address { read: u8, role: NumberRole },
}

/// What a byte makes of a scan.
#[derive(Clone, Copy, Debug, PartialEq, Eq)]
pub enum ReplyProgress {
    Goes(ReplyScanner),
    /// The byte was the last one.
    Done,
    /// No bytes that are right go on so.
    Fails,
}

/// The number with one more digit, unless that passes the bound.
fn number_step(number: u32, most: u32, digit: u8) -> Option<u32>
    requires { (48 ≤ digit) × (digit ≤ 57) }
    ensures { result ≡ number_step number most digit }
{
    let next = u64::from(number) * 10 + u64::from(digit - b'0');
    if next > u64::from(most) {
        return None;
    }
    Some(next as u32)
}

/// The next of so many items, or the end.
fn items_next(count: u32) -> ReplyProgress
    ensures { outcome_of result ≡ items_next count }
{
    match count {
        0 => ReplyProgress::Done,
        _ => ReplyProgress::Goes(ReplyScanner::Item { more: count - 1 }),
    }
}

/// The next of so many diagonals, or the end.
fn diagonals_next(count: u32) -> ReplyProgress
    ensures { outcome_of result ≡ diagonals_next count }
{
    if count == 0 {
        return ReplyProgress::Done;
    }
    ReplyProgress::Goes(ReplyScanner::Address {
        read: 0,
        role: NumberRole::Left { more: count - 1 },
    })
}

impl NumberRole {
    /// The greatest number.
    fn most(self) -> u32
        ensures { result ≡ most_of self }
    {
        match self {
            NumberRole::Refusal => 15,
            NumberRole::Items | NumberRole::Diagonals => MOST_ITEMS,
            NumberRole::Left { .. } | NumberRole::Right { .. } | NumberRole::Length { .. } =>
                u32::MAX,
        }
    }

    /// Whether 0 is such a number.
    fn may_be_zero(self) -> bool
        ensures { result ≡ may_be_zero self }
    {
        match self {
            NumberRole::Items | NumberRole::Diagonals | NumberRole::Length { .. } => true,
            NumberRole::Refusal | NumberRole::Left { .. } | NumberRole::Right { .. } => false,
        }
    }

    /// What comes behind the number.
    fn after(self, number: u32) -> ReplyProgress
        ensures { outcome_of result ≡ number_ended self number }
    {
        match self {
            NumberRole::Refusal => ReplyProgress::Done,
            NumberRole::Items => items_next(number),
            NumberRole::Diagonals => diagonals_next(number),
            NumberRole::Left { more } => ReplyProgress::Goes(ReplyScanner::Address {
                read: 0,
                role: NumberRole::Right { more },
            }),
            NumberRole::Right { more } => ReplyProgress::Goes(ReplyScanner::Number {
                role: NumberRole::Length { more },
            }),
            NumberRole::Length { more } => diagonals_next(more),
        }
    }

    /// The scan behind one more digit.
    fn digit(self, number: u32, byte: u8) -> ReplyProgress
        requires { (48 ≤ byte) × (byte ≤ 57) }
        ensures { outcome_of result ≡ number_goes self (number_step number (most_of self) byte) }
    {
        match number_step(number, self.most(), byte) {
            Some(number) => ReplyProgress::Goes(ReplyScanner::Digits { number, role: self }),
            None => ReplyProgress::Fails,
        }
    }

    /// The scan behind the first digit.
    fn begin(self, byte: u8) -> ReplyProgress
        ensures { outcome_of result ≡ number_begins self byte }
    {
        match byte {
            b'0' => {
                if self.may_be_zero() {
                    return ReplyProgress::Goes(ReplyScanner::Zero { role: self });
                }
                ReplyProgress::Fails
            }
            b'1'..=b'9' => self.digit(0, byte),
            _ => ReplyProgress::Fails,
        }
    }

    /// The scan behind a further digit, or the tilde.
    fn go_on(self, number: u32, byte: u8) -> ReplyProgress
        ensures { outcome_of result ≡ number_goes_on number self byte }
    {
        match byte {
            b'0'..=b'9' => self.digit(number, byte),
            b'~' => self.after(number),
            _ => ReplyProgress::Fails,
        }
    }

    /// The scan behind a byte of those that stand before a text position.
    fn address(self, read: u8, byte: u8) -> ReplyProgress
        ensures { outcome_of result ≡ address_step read self byte }
    {
        let (wanted, next) = match read {
            0 => (b'0', self.behind(1)),
            1 => (b'.', self.behind(2)),
            2 => (b'1', self.behind(3)),
            _ => (b'.', ReplyScanner::Number { role: self }),
        };
        if byte == wanted {
            return ReplyProgress::Goes(next);
        }
        ReplyProgress::Fails
    }

    /// So many bytes were read of those before a text position.
    fn behind(self, read: u8) -> ReplyScanner
        ensures { result ≡ scanners.Address read self }
    {
        ReplyScanner::Address { read, role: self }
    }
}

/// The scan behind a byte of the fields.
fn within(progress: Progress) -> ReplyProgress
    ensures { outcome_of result ≡ begun (fields_outcome progress) }
{
    match progress {
        Progress::Goes(scanner) => ReplyProgress::Goes(ReplyScanner::Fields { scanner }),
        Progress::Done => ReplyProgress::Done,
        Progress::Fails => ReplyProgress::Fails,
    }
}

/// The scan behind a byte of an item.
fn within_item(more: u32, progress: Progress) -> ReplyProgress
    ensures { outcome_of result ≡ item_goes more (fields_outcome progress) }
{
    match progress {
        Progress::Goes(scanner) => ReplyProgress::Goes(ReplyScanner::InItem { scanner, more }),
        Progress::Done => items_next(more),
        Progress::Fails => ReplyProgress::Fails,
    }
}

/// The scan of an item that begins with this byte: a t begins a text, and another byte the id of a link.
fn item_opened(byte: u8) -> Scanner
    ensures { fields_state result ≡ item_opened byte }
{
    match byte {
        b't' => Scanner::open(Field::Text, &[]),
        _ => Scanner::open(Field::Tumbler, &[]),
    }
}

impl Payload {
    /// The scan behind the number's tilde.
    fn begin(self) -> ReplyProgress
        ensures { outcome_of result ≡ behind_next (behind_of self) }
    {
        match self {
            Payload::Fields { fields } => within(start(fields)),
            Payload::Items => ReplyProgress::Goes(ReplyScanner::Number {
                role: NumberRole::Items,
            }),
            Payload::Diagonals => ReplyProgress::Goes(ReplyScanner::Number {
                role: NumberRole::Diagonals,
            }),
        }
    }
}

/// The scan behind the first digit of the reply's number.
fn first_digit(byte: u8) -> ReplyProgress
    ensures { outcome_of result ≡ first_digit byte }
{
    if byte == b'4' {
        return ReplyProgress::Goes(ReplyScanner::Four);
    }
    let digit @ b'0'..=b'9' = byte else {
        return ReplyProgress::Fails;
    };
    let number = u32::from(digit - b'0');
    match payload_of(number) {
        Some(payload) => ReplyProgress::Goes(ReplyScanner::OneDigit { number, payload }),
        None => ReplyProgress::Fails,
    }
}

/// The scan behind the second digit. No number begins with 0 but 0 itself.
fn second_digit(number: u32, byte: u8) -> ReplyProgress
    ensures { outcome_of result ≡ second_digit number byte }
{
    if number == 0 || number > 9 {
        return ReplyProgress::Fails;
    }
    let digit @ b'0'..=b'9' = byte else {
        return ReplyProgress::Fails;
    };
    match payload_of(number * 10 + u32::from(digit - b'0')) {
        Some(payload) => ReplyProgress::Goes(ReplyScanner::TwoDigits { payload }),
        None => ReplyProgress::Fails,
    }
}

/// The scan behind the first byte.
fn first_byte(byte: u8) -> ReplyProgress
    ensures { outcome_of result ≡ reply_step at_start byte }
{
    match byte {
        b'?' => ReplyProgress::Goes(ReplyScanner::Number {
            role: NumberRole::Refusal,
        }),
        _ => first_digit(byte),
    }
}

impl ReplyScanner {
    /// What this byte makes of the scan.
    fn step(self, byte: u8) -> ReplyProgress
        ensures { outcome_of result ≡ reply_step (state_of self) byte }
    {
        match self {
            ReplyScanner::Start => first_byte(byte),
            ReplyScanner::OneDigit { number, payload } => match byte {
                b'~' => payload.begin(),
                _ => second_digit(number, byte),
            },
            ReplyScanner::Four => second_digit(4, byte),
            ReplyScanner::TwoDigits { payload } => match byte {
                b'~' => payload.begin(),
                _ => ReplyProgress::Fails,
            },
            ReplyScanner::Fields { scanner } => within(scanner.step(byte)),
            ReplyScanner::Number { role } => role.begin(byte),
            ReplyScanner::Zero { role } => match byte {
                b'~' => role.after(0),
                _ => ReplyProgress::Fails,
            },
            ReplyScanner::Digits { number, role } => role.go_on(number, byte),
            ReplyScanner::Item { more } => within_item(more, item_opened(byte).step(byte)),
            ReplyScanner::InItem { scanner, more } => within_item(more, scanner.step(byte)),
            ReplyScanner::Address { read, role } => role.address(read, byte),
        }
    }

    /// What the scan says of these bytes, from here on.
    pub(crate) fn scan(self, bytes: &[u8]) -> Scanned
        ensures { result ≡ scan reply_step (state_of self) bytes.now }
    {
        let mut scanner = self;
        let mut rest = bytes;
        while let [byte, behind @ ..] = rest {
            match scanner.step(*byte) {
                ReplyProgress::Goes(next) => {
                    scanner = next;
                    rest = behind;
                }
                ReplyProgress::Done => {
                    return Scanned::Complete {
                        used: bytes.len() - behind.len(),
                    };
                }
                ReplyProgress::Fails => {
                    return Scanned::Bad {
                        at: bytes.len() - rest.len(),
                    };
                }
            }
        }
        Scanned::Incomplete
    }
}
