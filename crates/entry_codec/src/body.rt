//! Bodies: their length, and the entry and the moment in them.
ghost use Rattle.std.specs.Prelude.{◌≡◌, ◌+◌, ◌≤◌, ◌++◌, [], length, IfOk, OnOk, MatchOption};
ghost use Rattle.febe_data.specs.Plain.{plain_change, plain_entry};
ghost use Rattle.febe_fields.specs.Reading.{ReadsIfOk, Reads};
ghost use Rattle.entry_codec.specs.Logged.{plain_logged, made_at_moment, untimed};
ghost use Rattle.entry_codec.specs.Format.{head_bytes, logged_bytes, body_of};
ghost use Rattle.entry_codec.specs.Bodies.{IsEncodable, HasBody, IsDecoded, IsOldDecoded, BeginsWithBody, IsOnlyFront};
ghost use Rattle.entry_codec.specs.Reading.{made_at, number_of, moment_at, head_at, row_at, body_row};
ghost use Rattle.entry_codec.specs.declared.format.LogFormat.TheVariants.{New};

use crate::changes::change_at;
use crate::counting::change_size;
use crate::fields::{length_at, length_size, u8_at, u64_at};
use crate::format::LogFormat;
use crate::logged::Logged;
use crate::writing::{append_change, append_u8, append_u64, kind_of};
use febe_data::{Entry, List, Memory, Text};
use std::alloc::Global;

/// The number of a format, in the first byte behind the length of a body.
fn number_of(format: LogFormat) -> u8
    ensures { result ≡ number_of format }
{
    match format {
        LogFormat::Old => 1,
        LogFormat::New => 2,
    }
}

/// How many bytes the head of a body has: the number of its format, and the moment, where it has one.
fn head_size(format: LogFormat) -> u64
    ensures is { (moment : _) → result ≡ length (head_bytes format moment) }
    ensures few { result ≤ 9 }
{
    match format {
        LogFormat::Old => 1,
        LogFormat::New => 9,
    }
}

/// How many bytes stand behind the length of the entry's body, whatever its moment is: its head, session, serial, kind
/// and fields.
fn rest_size(format: LogFormat, entry: &Entry) -> u64
    requires { IsEncodable (plain_change entry.now.change) }
    ensures is { (moment : _) → result ≡ length (logged_bytes format (made_at_moment (plain_entry entry.now) moment)) }
    ensures few { result ≤ 60000026 }
{
    head_size(format) + 17 + change_size(format, &entry.change)
}

/// How long the body of an entry is in this format, whatever its moment is. Takes no memory.
pub fn body_length(format: LogFormat, entry: &Entry) -> u64
    requires { HasBody format (untimed (plain_entry entry.now)) }
    ensures { result ≡ length (body_of format (untimed (plain_entry entry.now))) }
{
    length_size(format) as u64 + rest_size(format, entry)
}

/// An empty list with room for a body that has so many bytes behind its length, and for the byte that a log puts behind
/// a body.
fn body_room(alloc: Global, rest: u64) -> Result<Text, Memory>
    requires { rest ≤ 60000026 }
    ensures { IfOk result (λ body. body.items ≡ []) }
{
    let mut body = List::new(alloc);
    body.reserve(rest as usize + 9)?;
    Ok(body)
}

/// Adds what stands behind the length of a body.
fn append_logged(out: &mut Text, entry: &Entry, moment: u64) -> Result<(), Memory>
    requires { HasBody New (made_at_moment (plain_entry entry.now) moment) }
    ensures { OnOk result (out.new.items ≡ out.old.items ++ logged_bytes New (made_at_moment (plain_entry entry.now) moment)) }
{
    append_u8(out, number_of(LogFormat::New))?;
    append_u64(out, moment)?;
    append_u64(out, entry.session)?;
    append_u64(out, entry.serial)?;
    append_u8(out, kind_of(&entry.change))?;
    append_change(out, &entry.change)
}

/// The one body of an entry whose change is logged, and of its moment, in the new format. The entry's fields keep to the
/// bounds of requests: a text has at most 16,777,216 bytes, a list at most 65,536 items, and the specs of one list
/// together at most as many spans.
pub fn encode(alloc: Global, entry: &Entry, moment: u64) -> Result<Text, Memory>
    requires { HasBody New (made_at_moment (plain_entry entry.now) moment) }
    ensures { IfOk result (λ body. body.items ≡ body_of New (made_at_moment (plain_entry entry.now) moment)) }
{
    let rest = rest_size(LogFormat::New, entry);
    let mut body = body_room(alloc, rest)?;
    append_u64(&mut body, rest)?;
    append_logged(&mut body, entry, moment)?;
    Ok(body)
}

/// The entry in what stands behind the head of a body.
#[tactic(auto, unfolding(crate::specs::Reading::made_at))]
fn made_at(alloc: Global, format: LogFormat, bytes: &[u8]) -> Result<Option<Entry>, Memory>
    ensures { ReadsIfOk plain_entry result (made_at format bytes.now) }
{
    let Some((session, rest)) = u64_at(bytes) else {
        return Ok(None);
    };
    let Some((serial, rest)) = u64_at(rest) else {
        return Ok(None);
    };
    let Some((kind, rest)) = u8_at(rest) else {
        return Ok(None);
    };
    let Some((change, rest)) = change_at(alloc, format, kind, rest)? else {
        return Ok(None);
    };
    if !rest.is_empty() {
        return Ok(None);
    }
    Ok(Some(Entry {
        session,
        serial,
        change,
    }))
}

/// A moment, which the old format does not have: 0 stands for it.
#[tactic(auto, unfolding(crate::specs::Reading::moment_at))]
fn moment_at(format: LogFormat, bytes: &[u8]) -> Option<(u64, &[u8])>
    ensures { Reads (λ x. (x.0, x.1.now)) result (moment_at format bytes.now) }
{
    match format {
        LogFormat::Old => Some((0, bytes)),
        LogFormat::New => u64_at(bytes),
    }
}

/// The head of a body: the number of its format, and the moment.
#[tactic(auto, unfolding(crate::specs::Reading::head_at))]
fn head_at(format: LogFormat, bytes: &[u8]) -> Option<(u64, &[u8])>
    ensures { Reads (λ x. (x.0, x.1.now)) result (head_at format bytes.now) }
{
    let (number, rest) = u8_at(bytes)?;
    if number != number_of(format) {
        return None;
    }
    moment_at(format, rest)
}

/// The entry and the moment in what stands behind the length of a body.
#[tactic(auto, unfolding(crate::specs::Reading::row_at))]
fn row_at(alloc: Global, format: LogFormat, bytes: &[u8]) -> Result<Option<Logged>, Memory>
    ensures { ReadsIfOk plain_logged result (row_at format bytes.now) }
{
    let Some((moment, rest)) = head_at(format, bytes) else {
        return Ok(None);
    };
    let Some(entry) = made_at(alloc, format, rest)? else {
        return Ok(None);
    };
    Ok(Some(Logged { entry, moment }))
}

/// The entry and the moment in a body, if the bytes are one.
#[tactic(auto, unfolding(crate::specs::Reading::body_row))]
fn body_row(alloc: Global, format: LogFormat, bytes: &[u8]) -> Result<Option<Logged>, Memory>
    ensures { ReadsIfOk plain_logged result (body_row format bytes.now) }
{
    let Some((len, rest)) = length_at(format, bytes) else {
        return Ok(None);
    };
    if len != rest.len() as u64 {
        return Ok(None);
    }
    row_at(alloc, format, rest)
}

/// The entry and the moment whose body the bytes are, in the new format. `None` exactly where they are no entry's: one
/// byte less, one more, or any field out of its bounds.
pub fn decode(alloc: Global, bytes: &[u8]) -> Result<Option<Logged>, Memory>
    ensures { IfOk result (λ logged. IsDecoded bytes.now logged) }
{
    body_row(alloc, LogFormat::New, bytes)
}

/// So for the old format, which has no moments.
pub fn decode_old(alloc: Global, bytes: &[u8]) -> Result<Option<Entry>, Memory>
    ensures { IfOk result (λ entry. IsOldDecoded bytes.now entry) }
{
    let Some(logged) = body_row(alloc, LogFormat::Old, bytes)? else {
        return Ok(None);
    };
    Ok(Some(logged.entry))
}

/// The bytes up to the end that their first ones say, and those behind it. `None` where they end before; then no body of
/// this format begins them. Where a body begins them it is that front. Takes no memory.
pub fn split_body(format: LogFormat, bytes: &[u8]) -> Option<(&[u8], &[u8])>
    ensures { MatchOption result (¬ BeginsWithBody format bytes.now) (λ parts. IsOnlyFront format bytes.now parts.0.now parts.1.now) }
{
    let (len, rest) = length_at(format, bytes)?;
    if (rest.len() as u64) < len {
        return None;
    }
    Some(bytes.split_at(length_size(format) + len as usize))
}
