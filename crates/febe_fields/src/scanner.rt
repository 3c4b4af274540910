//! Fields scanned byte by byte, with nothing kept but what is to come.
ghost use Rattle.std.specs.Prelude.{◌≡◌, ◌≤◌, ◌-◌, ◌++◌, ℕ, List, [], length, drop};
ghost use Rattle.febe_fields.specs.Machine.{state_of, outcome_of, opened, fields_next, what_next, role_ended, stepped, field_step};
ghost use Rattle.febe_fields.specs.Scanning.{goes, behind, scan};
ghost use Rattle.febe_fields.specs.declared.scanner.Role.TheVariants.{Value};
ghost use Rattle.febe_fields.specs.declared.leaf.Leaf.TheVariants.{First, Text};
ghost use Rattle.febe_fields.specs.declared.leaf.Terminator.TheVariants.{Tilde};

use crate::leaf::{Leaf, LeafStep, Terminator};
use crate::scanned::Scanned;
use febe_data::bounds::{MOST_ITEMS, MOST_TEXT_BYTES};

/// A field of a request or of a reply.
#[derive(Clone, Copy, Debug, PartialEq, Eq)]
pub enum Field {
    Tumbler,
    Number,
    Text,
    Span,
    Spans,
    Tumblers,
    Spec,
    Specs,
    Mode,
    Rule,
}

/// What the number at the end of a leaf is good for.
#[derive(Clone, Copy, Debug, PartialEq, Eq)]
pub enum Role {
    /// It is the field's own value, or none.
    Value,
    /// The letter before a text's length was read.
    TextMark,
    /// So many bytes come.
    TextLength,
    /// So many tumblers come.
    CountOfTumblers,
    /// So many spans come.
    CountOfSpans,
    /// So many specs come.
    CountOfSpecs,
    /// A spec's document was read: the number of its spans comes.
    Document,
    /// So many spans of this spec come, and are counted against what its set has room for.
    CountOfSpecSpans,
}

/// What comes behind the open leaf.
#[derive(Clone, Copy, Debug, PartialEq, Eq)]
pub struct Ahead {
    pub role: Role,
    /// Tumblers of the open list.
    pub tumblers: u64,
    /// Specs of the open set.
    pub specs: u32,
    /// Spans that these may have in all.
    pub room: u32,
    /// Fields behind the open one.
    pub fields: &'static [Field],
}

/// Where in its fields a scan is.
#[derive(Clone, Copy, Debug, PartialEq, Eq)]
pub struct Scanner {
    pub leaf: Leaf,
    pub ahead: Ahead,
}

/// What a byte makes of a scan.
#[derive(Clone, Copy, Debug, PartialEq, Eq)]
pub enum Progress {
    Goes(Scanner),
    /// The byte was the last one.
    Done,
    /// No bytes that are right go on so.
    Fails,
}

impl Scanner {
    /// The scan of one field, with others behind it.
    pub fn open(field: Field, fields: &'static [Field]) -> Scanner
        ensures { state_of result ≡ opened field fields.now }
    {
        let (leaf, role, tumblers, room) = match field {
            Field::Tumbler => (Leaf::ZeroCount, Role::Value, 0, 0),
            Field::Number => (number_leaf(u32::MAX), Role::Value, 0, 0),
            Field::Text => (Leaf::Byte { byte: b't' }, Role::TextMark, 0, 0),
            Field::Span => (Leaf::ZeroCount, Role::Value, 1, 0),
            Field::Spans => (number_leaf(MOST_ITEMS), Role::CountOfSpans, 0, 0),
            Field::Tumblers => (number_leaf(MOST_ITEMS), Role::CountOfTumblers, 0, 0),
            Field::Spec => (Leaf::ZeroCount, Role::Document, 0, MOST_ITEMS),
            Field::Specs => (number_leaf(MOST_ITEMS), Role::CountOfSpecs, 0, 0),
            Field::Mode => (Leaf::Choice { more: 1 }, Role::Value, 0, 0),
            Field::Rule => (Leaf::Choice { more: 2 }, Role::Value, 0, 0),
        };
        Scanner {
            leaf,
            ahead: Ahead {
                role,
                tumblers,
                specs: 0,
                room,
                fields,
            },
        }
    }
}

/// A number up to this one, and its tilde.
fn number_leaf(most: u32) -> Leaf
    ensures { result ≡ First most Tilde }
{
    Leaf::First {
        most,
        end: Terminator::Tilde,
    }
}

impl Ahead {
    /// What comes next: a tumbler of the open list, a spec of the open set, or the next field.
    fn next(self) -> Progress
        ensures { outcome_of result ≡ what_next self.tumblers self.specs self.room self.fields.now }
    {
        if self.tumblers > 0 {
            return Progress::Goes(Scanner {
                leaf: Leaf::ZeroCount,
                ahead: Ahead {
                    role: Role::Value,
                    tumblers: self.tumblers - 1,
                    ..self
                },
            });
        }
        if self.specs > 0 {
            return Progress::Goes(Scanner {
                leaf: Leaf::ZeroCount,
                ahead: Ahead {
                    role: Role::Document,
                    specs: self.specs - 1,
                    ..self
                },
            });
        }
        start(self.fields)
    }

    /// What comes when the open leaf has ended with this number.
    fn after(self, number: u32) -> Progress
        ensures { outcome_of result ≡ role_ended self.role number self.tumblers self.specs self.room self.fields.now }
    {
        match self.role {
            Role::Value => self.next(),
            Role::TextMark => self.goes_on(
                Leaf::First {
                    most: MOST_TEXT_BYTES,
                    end: Terminator::Colon,
                },
                Role::TextLength,
            ),
            Role::TextLength => {
                if number == 0 {
                    return self.next();
                }
                self.goes_on(Leaf::Text { more: number - 1 }, Role::Value)
            }
            Role::CountOfTumblers => Ahead {
                tumblers: u64::from(number),
                ..self
            }
            .next(),
            Role::CountOfSpans => Ahead {
                tumblers: u64::from(number) * 2,
                ..self
            }
            .next(),
            Role::CountOfSpecs => Ahead {
                specs: number,
                room: MOST_ITEMS,
                ..self
            }
            .next(),
            Role::Document => self.goes_on(number_leaf(self.room), Role::CountOfSpecSpans),
            Role::CountOfSpecSpans => Ahead {
                tumblers: u64::from(number) * 2,
                room: self.room.saturating_sub(number),
                ..self
            }
            .next(),
        }
    }

    fn goes_on(self, leaf: Leaf, role: Role) -> Progress
        ensures { outcome_of result ≡ goes (record { leaf = leaf; role = role; tumblers = self.tumblers; specs = self.specs; room = self.room; fields = self.fields.now }) }
    {
        Progress::Goes(Scanner {
            leaf,
            ahead: Ahead { role, ..self },
        })
    }
}

/// The scan of these fields, or its end where there are none.
pub fn start(fields: &'static [Field]) -> Progress
    ensures { outcome_of result ≡ fields_next fields.now }
{
    match fields {
        [field, behind @ ..] => Progress::Goes(Scanner::open(*field, behind)),
        [] => Progress::Done,
    }
}

impl Scanner {
    /// The scan of a number up to this one.
    pub fn number(most: u32) -> Scanner
        ensures { state_of result ≡ record { leaf = First most Tilde; role = Value; tumblers = 0; specs = 0; room = 0; fields = [] } }
    {
        Scanner {
            leaf: number_leaf(most),
            ahead: Ahead {
                role: Role::Value,
                tumblers: 0,
                specs: 0,
                room: 0,
                fields: &[],
            },
        }
    }

    /// What the scan says of these bytes, from here on.
    pub fn scan(self, bytes: &[u8]) -> Scanned
        ensures { result ≡ scan field_step (state_of self) bytes.now }
    {
        let mut scanner = self;
        let mut rest = bytes;
        while let [byte, behind @ ..] = rest {
            match scanner.step(*byte) {
                Progress::Goes(next) => {
                    let (next, behind) = next.pass_text(behind);
                    scanner = next;
                    rest = behind;
                }
                Progress::Done => {
                    return Scanned::Complete {
                        used: bytes.len() - behind.len(),
                    };
                }
                Progress::Fails => {
                    return Scanned::Bad {
                        at: bytes.len() - rest.len(),
                    };
                }
            }
        }
        Scanned::Incomplete
    }

    /// The scan behind the bytes of an open text, as many as are there but for the text's last one.
    pub fn pass_text(self, bytes: &[u8]) -> (Scanner, &[u8])
        ensures within { length result.1.now ≤ length bytes.now }
        ensures over { (more : ℕ) → self.leaf ≡ Text more → result.1.now ≡ drop more bytes.now }
        ensures passed { (more : List ℕ) → scan field_step (state_of self) (bytes.now ++ more) ≡ behind (length bytes.now - length result.1.now) (scan field_step (state_of result.0) (result.1.now ++ more)) }
    {
        let Leaf::Text { more } = self.leaf else {
            return (self, bytes);
        };
        let count = bytes.len().min(more as usize);
        let leaf = Leaf::Text {
            more: more - count as u32,
        };
        (Scanner { leaf, ..self }, bytes.split_at(count).1)
    }

    /// What this byte makes of the scan.
    pub fn step(self, byte: u8) -> Progress
        ensures { outcome_of result ≡ field_step (state_of self) byte }
    {
        match self.leaf.step(byte) {
            LeafStep::Goes(leaf) => Progress::Goes(Scanner { leaf, ..self }),
            LeafStep::Ends { number } => self.ahead.after(number),
            LeafStep::Fails => Progress::Fails,
        }
    }
}
