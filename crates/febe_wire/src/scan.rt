//! Requests scanned byte by byte, with nothing kept but what is to come.
ghost use Rattle.std.specs.Prelude.{◌≡◌, ◌≤◌, ◌-◌, ◌++◌, ℕ, List, length};
ghost use Rattle.febe_fields.specs.Scanning.{behind, scan};
ghost use Rattle.febe_fields.specs.Machine.{outcome_of as fields_outcome};
ghost use Rattle.febe_wire.specs.RequestMachine.{fields_seen, fields_of, state_of, outcome_of, begun, first_digit, second_digit, request_step};
ghost use Rattle.febe_wire.specs.Reads.{IfIncomplete};

use febe_fields::{Field, Progress, Scanned, Scanner};

/// The fields of a link search.
const WANT: &[Field] = &[Field::Spans, Field::Specs, Field::Specs, Field::Specs];

/// The fields behind the number of a request, where there is such a request.
fn fields_of(number: u32) -> Option<&'static [Field]>
    ensures { fields_seen result ≡ fields_of number }
{
    Some(match number {
        0 => &[Field::Tumbler, Field::Tumbler, Field::Text],
        1 | 13 | 14 | 34 | 36 | 40 => &[Field::Tumbler],
        2 => &[Field::Tumbler, Field::Tumbler, Field::Specs],
        3 => &[Field::Tumbler, Field::Tumblers],
        5 | 22 | 28 => &[Field::Specs],
        10 => &[Field::Spec, Field::Spec],
        11 | 16 => &[],
        12 => &[Field::Tumbler, Field::Span],
        18 => &[Field::Tumbler, Field::Number],
        27 => &[Field::Tumbler, Field::Specs, Field::Specs, Field::Specs],
        29 | 30 => WANT,
        31 => &[
            Field::Spans,
            Field::Specs,
            Field::Specs,
            Field::Specs,
            Field::Tumbler,
            Field::Number,
        ],
        35 => &[Field::Tumbler, Field::Mode, Field::Rule],
        _ => return None,
    })
}

/// Where in a request a scan is.
#[derive(Clone, Copy, Debug, PartialEq, Eq)]
pub enum RequestScanner {
    Start,
    /// One digit of the number was read, behind which these fields come.
    OneDigit {
        number: u32,
        fields: &'static [Field],
    },
    /// A 4 was read, which begins the number of a request and is none.
    Four,
    /// Two digits were read.
    TwoDigits {
        fields: &'static [Field],
    },
    Fields(Scanner),
}

/// What a byte makes of a scan.
#[derive(Clone, Copy, Debug, PartialEq, Eq)]
pub enum RequestProgress {
    Goes(RequestScanner),
    Done,
    Fails,
}

/// The scan behind a byte of the fields.
fn within(progress: Progress) -> RequestProgress
    ensures { outcome_of result ≡ begun (fields_outcome progress) }
{
    match progress {
        Progress::Goes(scanner) => RequestProgress::Goes(RequestScanner::Fields(scanner)),
        Progress::Done => RequestProgress::Done,
        Progress::Fails => RequestProgress::Fails,
    }
}

/// The scan behind the first digit.
fn first_digit(byte: u8) -> RequestProgress
    ensures { outcome_of result ≡ first_digit byte }
{
    if byte == b'4' {
        return RequestProgress::Goes(RequestScanner::Four);
    }
    let digit @ b'0'..=b'9' = byte else {
        return RequestProgress::Fails;
    };
    let number = u32::from(digit - b'0');
    match fields_of(number) {
        Some(fields) => RequestProgress::Goes(RequestScanner::OneDigit { number, fields }),
        None => RequestProgress::Fails,
    }
}

/// The scan behind the second digit. No number begins with 0 but 0 itself.
fn second_digit(number: u32, byte: u8) -> RequestProgress
    ensures { outcome_of result ≡ second_digit number byte }
{
    if number == 0 || number > 9 {
        return RequestProgress::Fails;
    }
    let digit @ b'0'..=b'9' = byte else {
        return RequestProgress::Fails;
    };
    match fields_of(number * 10 + u32::from(digit - b'0')) {
        Some(fields) => RequestProgress::Goes(RequestScanner::TwoDigits { fields }),
        None => RequestProgress::Fails,
    }
}

impl RequestScanner {
    /// What this byte makes of the scan.
    fn step(self, byte: u8) -> RequestProgress
        ensures { outcome_of result ≡ request_step (state_of self) byte }
    {
        match self {
            RequestScanner::Start => first_digit(byte),
            RequestScanner::OneDigit { number, fields } => match byte {
                b'~' => within(febe_fields::start(fields)),
                _ => second_digit(number, byte),
            },
            RequestScanner::Four => second_digit(4, byte),
            RequestScanner::TwoDigits { fields } => match byte {
                b'~' => within(febe_fields::start(fields)),
                _ => RequestProgress::Fails,
            },
            RequestScanner::Fields(scanner) => within(scanner.step(byte)),
        }
    }
}

impl RequestScanner {
    /// The scan behind the bytes of an open text, as many as are there but for the text's last one.
    fn pass_text(self, bytes: &[u8]) -> (RequestScanner, &[u8])
        ensures within { length result.1.now ≤ length bytes.now }
        ensures passed { (more : List ℕ) → scan request_step (state_of self) (bytes.now ++ more) ≡ behind (length bytes.now - length result.1.now) (scan request_step (state_of result.0) (result.1.now ++ more)) }
    {
        let RequestScanner::Fields(scanner) = self else {
            return (self, bytes);
        };
        let (scanner, rest) = scanner.pass_text(bytes);
        (RequestScanner::Fields(scanner), rest)
    }

    /// What the scan says of these bytes, from here on. Where it ends in none of them, a scan of what comes behind
    /// them goes on from where this one is then.
    pub fn scan(&mut self, bytes: &[u8]) -> Scanned
        ensures said { result ≡ scan request_step (state_of self.old) bytes.now }
        ensures goes_on { IfIncomplete result ((more : List ℕ) → scan request_step (state_of self.old) (bytes.now ++ more) ≡ behind (length bytes.now) (scan request_step (state_of self.new) more)) }
    {
        let mut rest = bytes;
        while let [byte, behind @ ..] = rest {
            match self.step(*byte) {
                RequestProgress::Goes(next) => {
                    let (next, behind) = next.pass_text(behind);
                    *self = next;
                    rest = behind;
                }
                RequestProgress::Done => {
                    return Scanned::Complete {
                        used: bytes.len() - behind.len(),
                    };
                }
                RequestProgress::Fails => {
                    return Scanned::Bad {
                        at: bytes.len() - rest.len(),
                    };
                }
            }
        }
        Scanned::Incomplete
    }
}
