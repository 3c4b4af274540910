//! Replies, each read from the start of the bytes: the reply and the bytes after it.
ghost use Rattle.std.specs.Prelude.{◌≡◌};
ghost use Rattle.febe_data.specs.Plain.{plain_reply};
ghost use Rattle.febe_fields.specs.Reading.{Reads, ReadsIfOk};
ghost use Rattle.febe_reply.specs.inside.Reading.{refusal_of, refused_at, reply_with_nothing, with_nothing_at, with_tumbler_at, with_tumblers_at, span_set_at, whole_span_at, followed_at, end_sets_at, link_count_at, reply_of, numbered_at, reply_at};

use crate::items::{related_at, retrieved_at};
use febe_data::{Memory, Refusal, Reply};
use febe_fields::{number_at, span_at, spans_at, specs_at, tumbler_at, tumblers_at};
use std::alloc::Global;

/// The refusal of this number.
fn refusal_of(number: u32) -> Option<Refusal>
    ensures { result ≡ refusal_of number }
{
    Some(match number {
        1 => Refusal::NoAccount,
        2 => Refusal::NoSuchDocument,
        3 => Refusal::NotOpen,
        4 => Refusal::NotOpenForWriting,
        5 => Refusal::NotOwner,
        6 => Refusal::Conflict,
        7 => Refusal::BadAddress,
        8 => Refusal::BadCuts,
        9 => Refusal::NoSuchLink,
        10 => Refusal::NoSuchEnd,
        11 => Refusal::TooLong,
        12 => Refusal::Full,
        13 => Refusal::Disk,
        14 => Refusal::Memory,
        15 => Refusal::Private,
        _ => return None,
    })
}

/// A refusal, from behind its question mark.
#[tactic(auto, unfolding(crate::specs::inside::Reading::refused_at))]
fn refused_at(bytes: &[u8]) -> Option<(Reply, &[u8])>
    ensures { Reads (λ x. (plain_reply x.0, x.1.now)) result (refused_at bytes.now) }
{
    let (number, rest) = number_at(bytes)?;
    let refusal = refusal_of(number)?;
    Some((Reply::Refused(refusal), rest))
}

/// The reply of this number, where it is one that gives nothing.
#[tactic(auto, unfolding(crate::specs::inside::Reading::with_nothing_at))]
fn with_nothing_at(number: u32, bytes: &[u8]) -> Option<(Reply, &[u8])>
    ensures { Reads (λ x. (plain_reply x.0, x.1.now)) result (with_nothing_at number bytes.now) }
{
    match number {
        0 => Some((Reply::Inserted, bytes)),
        2 => Some((Reply::Copied, bytes)),
        3 => Some((Reply::Rearranged, bytes)),
        12 => Some((Reply::Deleted, bytes)),
        16 => Some((Reply::Quit, bytes)),
        34 => Some((Reply::AccountSet, bytes)),
        36 => Some((Reply::Closed, bytes)),
        40 => Some((Reply::Published, bytes)),
        _ => None,
    }
}

/// The reply of this number, where it is one that gives one tumbler.
#[tactic(auto, unfolding(crate::specs::inside::Reading::with_tumbler_at))]
fn with_tumbler_at(alloc: Global, number: u32, bytes: &[u8]) -> Option<(Reply, &[u8])>
    ensures { Reads (λ x. (plain_reply x.0, x.1.now)) result (with_tumbler_at number bytes.now) }
{
    let Some((place, rest)) = tumbler_at(alloc, bytes) else {
        return None;
    };
    match number {
        11 => Some((Reply::Created(place), rest)),
        13 => Some((Reply::Versioned(place), rest)),
        27 => Some((Reply::Linked(place), rest)),
        35 => Some((Reply::Opened(place), rest)),
        _ => None,
    }
}

/// The reply of this number, where it is one that gives a list of tumblers.
#[tactic(auto, unfolding(crate::specs::inside::Reading::with_tumblers_at))]
fn with_tumblers_at(
    alloc: Global,
    number: u32,
    bytes: &[u8],
) -> Result<Option<(Reply, &[u8])>, Memory>
    ensures { ReadsIfOk (λ x. (plain_reply x.0, x.1.now)) result (with_tumblers_at number bytes.now) }
{
    let Some((places, rest)) = tumblers_at(alloc, bytes)? else {
        return Ok(None);
    };
    match number {
        22 => Ok(Some((Reply::Documents(places), rest))),
        30 => Ok(Some((Reply::Links(places), rest))),
        31 => Ok(Some((Reply::NextLinks(places), rest))),
        _ => Ok(None),
    }
}

#[tactic(auto, unfolding(crate::specs::inside::Reading::span_set_at))]
fn span_set_at(alloc: Global, bytes: &[u8]) -> Result<Option<(Reply, &[u8])>, Memory>
    ensures { ReadsIfOk (λ x. (plain_reply x.0, x.1.now)) result (span_set_at bytes.now) }
{
    let Some((spans, rest)) = spans_at(alloc, bytes)? else {
        return Ok(None);
    };
    Ok(Some((Reply::SpanSet(spans), rest)))
}

#[tactic(auto, unfolding(crate::specs::inside::Reading::whole_span_at))]
fn whole_span_at(alloc: Global, bytes: &[u8]) -> Option<(Reply, &[u8])>
    ensures { Reads (λ x. (plain_reply x.0, x.1.now)) result (whole_span_at bytes.now) }
{
    let Some((span, rest)) = span_at(alloc, bytes) else {
        return None;
    };
    Some((Reply::WholeSpan(span), rest))
}

#[tactic(auto, unfolding(crate::specs::inside::Reading::followed_at))]
fn followed_at(alloc: Global, bytes: &[u8]) -> Result<Option<(Reply, &[u8])>, Memory>
    ensures { ReadsIfOk (λ x. (plain_reply x.0, x.1.now)) result (followed_at bytes.now) }
{
    let Some((specs, rest)) = specs_at(alloc, bytes)? else {
        return Ok(None);
    };
    Ok(Some((Reply::Followed(specs), rest)))
}

#[tactic(auto, unfolding(crate::specs::inside::Reading::end_sets_at))]
fn end_sets_at(alloc: Global, bytes: &[u8]) -> Result<Option<(Reply, &[u8])>, Memory>
    ensures { ReadsIfOk (λ x. (plain_reply x.0, x.1.now)) result (end_sets_at bytes.now) }
{
    let Some((from, rest)) = specs_at(alloc, bytes)? else {
        return Ok(None);
    };
    let Some((to, rest)) = specs_at(alloc, rest)? else {
        return Ok(None);
    };
    let Some((three, rest)) = specs_at(alloc, rest)? else {
        return Ok(None);
    };
    Ok(Some((Reply::EndSets { from, to, three }, rest)))
}

#[tactic(auto, unfolding(crate::specs::inside::Reading::link_count_at))]
fn link_count_at(bytes: &[u8]) -> Option<(Reply, &[u8])>
    ensures { Reads (λ x. (plain_reply x.0, x.1.now)) result (link_count_at bytes.now) }
{
    let (count, rest) = number_at(bytes)?;
    Some((Reply::LinkCount(count), rest))
}

/// The reply of this number, from what stands behind the number.
#[tactic(auto, unfolding(crate::specs::inside::Reading::reply_of))]
fn reply_of(alloc: Global, number: u32, bytes: &[u8]) -> Result<Option<(Reply, &[u8])>, Memory>
    ensures { ReadsIfOk (λ x. (plain_reply x.0, x.1.now)) result (reply_of number bytes.now) }
{
    match number {
        1 => span_set_at(alloc, bytes),
        5 => retrieved_at(alloc, bytes),
        10 => related_at(alloc, bytes),
        14 => Ok(whole_span_at(alloc, bytes)),
        18 => followed_at(alloc, bytes),
        28 => end_sets_at(alloc, bytes),
        29 => Ok(link_count_at(bytes)),
        11 | 13 | 27 | 35 => Ok(with_tumbler_at(alloc, number, bytes)),
        22 | 30 | 31 => with_tumblers_at(alloc, number, bytes),
        _ => Ok(with_nothing_at(number, bytes)),
    }
}

#[tactic(auto, unfolding(crate::specs::inside::Reading::numbered_at))]
fn numbered_at(alloc: Global, bytes: &[u8]) -> Result<Option<(Reply, &[u8])>, Memory>
    ensures { ReadsIfOk (λ x. (plain_reply x.0, x.1.now)) result (numbered_at bytes.now) }
{
    match number_at(bytes) {
        Some((number, rest)) => reply_of(alloc, number, rest),
        None => Ok(None),
    }
}

/// The reply in which the bytes begin, and the bytes behind it.
#[tactic(auto, unfolding(crate::specs::inside::Reading::reply_at))]
pub(crate) fn reply_at(alloc: Global, bytes: &[u8]) -> Result<Option<(Reply, &[u8])>, Memory>
    ensures { ReadsIfOk (λ x. (plain_reply x.0, x.1.now)) result (reply_at bytes.now) }
{
    match bytes {
        [b'?', rest @ ..] => Ok(refused_at(rest)),
        [_, ..] => numbered_at(alloc, bytes),
        [] => Ok(None),
    }
}
