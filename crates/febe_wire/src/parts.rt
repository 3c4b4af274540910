//! Parts of requests, read for other formats that are made of them.
ghost use Rattle.std.specs.Prelude.{IfOk};
ghost use Rattle.febe_wire.specs.PartReads.{IsGotNumber, IsGotSpans};

use febe_data::{List, Memory, Span};
use febe_fields::{Field, Scanned, Scanner, number_at, spans_at};
use std::alloc::Global;

/// What stands at the start of bytes, where a number is looked for.
#[derive(Clone, Copy, Debug, PartialEq, Eq)]
pub enum GotNumber {
    /// A number, which so many bytes spell.
    Number { number: u32, used: usize },
    /// The bytes are a proper prefix of a number.
    More,
    /// The first bytes, so many, are a prefix of a number, and the byte behind them can't stand there.
    Bad { at: usize },
}

/// What stands at the start of bytes, where a list of spans is looked for.
#[derive(Debug, Drop)]
pub enum GotSpans {
    /// A list of spans, which so many bytes spell.
    Spans { spans: List<Span>, used: usize },
    /// The bytes are a proper prefix of a list of spans.
    More,
    /// The first bytes, so many, are a prefix of such a list, and the byte behind them can't stand there.
    Bad { at: usize },
}

/// The number up to `most` in which the bytes begin.
pub fn read_number(bytes: &[u8], most: u32) -> GotNumber
    ensures got { IsGotNumber most bytes.now result }
{
    match Scanner::number(most).scan(bytes) {
        Scanned::Incomplete => GotNumber::More,
        Scanned::Bad { at } => GotNumber::Bad { at },
        Scanned::Complete { used } => {
            let Some((number, _)) = number_at(bytes) else {
                unreachable!();
            };
            GotNumber::Number { number, used }
        }
    }
}

/// The list of spans in which the bytes begin: its length, up to 65,536, then so many spans.
pub fn read_spans(alloc: Global, bytes: &[u8]) -> Result<GotSpans, Memory>
    ensures got { IfOk result (λ got. IsGotSpans bytes.now got) }
{
    match Scanner::open(Field::Spans, &[]).scan(bytes) {
        Scanned::Incomplete => Ok(GotSpans::More),
        Scanned::Bad { at } => Ok(GotSpans::Bad { at }),
        Scanned::Complete { used } => {
            let Some((spans, _)) = spans_at(alloc, bytes)? else {
                unreachable!();
            };
            Ok(GotSpans::Spans { spans, used })
        }
    }
}
