//! Requests beside their replies.
//!
//! The letter `A` stands for the first document of the first account, `0.1.1.0.1.0.1`. Spaces are no bytes of a row.

use febe_data::{Memory, Text};
use std::alloc::Global;

/// What is sent, and what is told for it.
pub(crate) type Exchange = (&'static str, &'static str);

/// A session that makes a document, inserts a text and retrieves it.
pub(crate) const HELLO: &[Exchange] = &[
    ("P0~", "P0~"),
    ("34~0.1.1.0.1~", "34~"),
    ("11~", "11~A~"),
    ("0~A~0.1.1~t5:hello", "0~"),
    ("5~1~A~1~0.1.1~1.5~", "5~1~t5:hello"),
    ("16~", "16~"),
];

/// The same, with no quit.
pub(crate) const HELLO_LEFT: &[Exchange] = &[
    ("P0~", "P0~"),
    ("34~0.1.1.0.1~", "34~"),
    ("11~", "11~A~"),
    ("0~A~0.1.1~t5:hello", "0~"),
    ("5~1~A~1~0.1.1~1.5~", "5~1~t5:hello"),
];

/// Which part of an exchange is meant.
#[derive(Clone, Copy)]
pub(crate) enum Side {
    Requests,
    Replies,
}

const DOCUMENT: &[u8] = b"0.1.1.0.1.0.1";

/// Adds the byte of a row, or what it stands for.
fn push_letter(bytes: &mut Text, letter: u8) -> Result<(), Memory> {
    match letter {
        b' ' => Ok(()),
        b'A' => bytes.extend_from_slice(DOCUMENT),
        _ => bytes.push(letter),
    }
}

/// Adds the bytes of a row.
pub(crate) fn push_row(bytes: &mut Text, row: &str) -> Result<(), Memory> {
    for letter in row.as_bytes() {
        push_letter(bytes, *letter)?;
    }
    Ok(())
}

/// The bytes of a row.
pub(crate) fn bytes_of(alloc: Global, row: &str) -> Result<Text, Memory> {
    let mut bytes = Text::new(alloc);
    push_row(&mut bytes, row)?;
    Ok(bytes)
}

/// Adds this side of an exchange.
fn push_side(bytes: &mut Text, exchange: &Exchange, side: Side) -> Result<(), Memory> {
    let (request, reply) = *exchange;
    match side {
        Side::Requests => push_row(bytes, request),
        Side::Replies => push_row(bytes, reply),
    }
}

/// One side of the first `count` exchanges, one behind the other.
pub(crate) fn first_of(
    alloc: Global,
    exchanges: &[Exchange],
    side: Side,
    count: usize,
) -> Result<Text, Memory> {
    let mut bytes = Text::new(alloc);
    for (before, exchange) in exchanges.iter().enumerate() {
        if before < count {
            push_side(&mut bytes, exchange, side)?;
        }
    }
    Ok(bytes)
}

/// One side of all exchanges.
pub(crate) fn all_of(alloc: Global, exchanges: &[Exchange], side: Side) -> Result<Text, Memory> {
    first_of(alloc, exchanges, side, exchanges.len())
}

/// How many exchanges have this side whole within so many bytes.
pub(crate) fn whole_in(
    alloc: Global,
    exchanges: &[Exchange],
    side: Side,
    given: usize,
) -> Result<usize, Memory> {
    let mut bytes = Text::new(alloc);
    let mut count: usize = 0;
    for exchange in exchanges {
        push_side(&mut bytes, exchange, side)?;
        if bytes.len() <= given {
            count = count.saturating_add(1);
        }
    }
    Ok(count)
}
