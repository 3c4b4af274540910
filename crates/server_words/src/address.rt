//! The address that a word names.
ghost use Rattle.std.specs.Prelude.{◌↔◌, IsTrue};
ghost use Rattle.server_words.specs.Words.{IsByteNumber, IsPort, IsPair, IsTriple, IsHost, IsAddress};

use crate::number::number_within;

/// Whether the word is a number up to 255.
fn is_byte_number(word: &str) -> bool
    ensures { IsTrue result ↔ IsByteNumber word.now }
{
    number_within(word, 0, 255).is_some()
}

/// Whether the word is a number up to 65535.
fn is_port(word: &str) -> bool
    ensures { IsTrue result ↔ IsPort word.now }
{
    number_within(word, 0, 65535).is_some()
}

/// Whether the word is two numbers up to 255, joined by a full stop.
fn is_pair(word: &str) -> bool
    ensures { IsTrue result ↔ IsPair word.now }
{
    match word.split_once('.') {
        Some((first, rest)) => is_byte_number(first) && is_byte_number(rest),
        None => false,
    }
}

/// Whether the word is three numbers up to 255, joined by full stops.
fn is_triple(word: &str) -> bool
    ensures { IsTrue result ↔ IsTriple word.now }
{
    match word.split_once('.') {
        Some((first, rest)) => is_byte_number(first) && is_pair(rest),
        None => false,
    }
}

/// Whether the word is four numbers up to 255, joined by full stops.
fn is_host(word: &str) -> bool
    ensures { IsTrue result ↔ IsHost word.now }
{
    match word.split_once('.') {
        Some((first, rest)) => is_byte_number(first) && is_triple(rest),
        None => false,
    }
}

/// Whether the word is an address: four numbers up to 255 joined by full stops, a colon, and a number up to 65535.
pub(crate) fn is_address(word: &str) -> bool
    ensures { IsTrue result ↔ IsAddress word.now }
{
    match word.split_once(':') {
        Some((host, port)) => is_host(host) && is_port(port),
        None => false,
    }
}
