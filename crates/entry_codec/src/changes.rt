//! Changes, each read from the fields behind its kind.
ghost use Rattle.febe_data.specs.Plain.{plain_change};
ghost use Rattle.febe_fields.specs.Reading.{Reads, ReadsIfOk};
ghost use Rattle.entry_codec.specs.Reading.{create_at, version_at, open_copy_at, insert_at, delete_at, rearrange_at, copy_at, link_at, publish_at, change_at};

use crate::fields::{text_at, tumbler_at, u32_at};
use crate::format::LogFormat;
use crate::lists::{numbers_at, span_at, specs_at};
use febe_data::{Change, List, Memory};
use std::alloc::Global;

#[tactic(auto, unfolding(crate::specs::Reading::create_at))]
fn create_at(alloc: Global, bytes: &[u8]) -> Option<(Change, &[u8])>
    ensures { Reads (λ x. (plain_change x.0, x.1.now)) result (create_at bytes.now) }
{
    let Some((document, rest)) = tumbler_at(alloc, bytes) else {
        return None;
    };
    Some((Change::Create { document }, rest))
}

#[tactic(auto, unfolding(crate::specs::Reading::version_at))]
fn version_at(alloc: Global, bytes: &[u8]) -> Option<(Change, &[u8])>
    ensures { Reads (λ x. (plain_change x.0, x.1.now)) result (version_at bytes.now) }
{
    let Some((source, rest)) = tumbler_at(alloc, bytes) else {
        return None;
    };
    let Some((document, rest)) = tumbler_at(alloc, rest) else {
        return None;
    };
    Some((Change::Version { source, document }, rest))
}

#[tactic(auto, unfolding(crate::specs::Reading::open_copy_at))]
fn open_copy_at(alloc: Global, bytes: &[u8]) -> Option<(Change, &[u8])>
    ensures { Reads (λ x. (plain_change x.0, x.1.now)) result (open_copy_at bytes.now) }
{
    let Some((source, rest)) = tumbler_at(alloc, bytes) else {
        return None;
    };
    let Some((document, rest)) = tumbler_at(alloc, rest) else {
        return None;
    };
    Some((Change::OpenCopy { source, document }, rest))
}

#[tactic(auto, unfolding(crate::specs::Reading::insert_at))]
fn insert_at(
    alloc: Global,
    format: LogFormat,
    bytes: &[u8],
) -> Result<Option<(Change, &[u8])>, Memory>
    ensures { ReadsIfOk (λ x. (plain_change x.0, x.1.now)) result (insert_at format bytes.now) }
{
    let Some((document, rest)) = tumbler_at(alloc, bytes) else {
        return Ok(None);
    };
    let Some((at, rest)) = u32_at(rest) else {
        return Ok(None);
    };
    let Some((first, rest)) = u32_at(rest) else {
        return Ok(None);
    };
    let Some((text, rest)) = text_at(format, rest) else {
        return Ok(None);
    };
    let text = List::from_slice(alloc, text)?;
    Ok(Some((
        Change::Insert {
            document,
            at,
            first,
            text,
        },
        rest,
    )))
}

#[tactic(auto, unfolding(crate::specs::Reading::delete_at))]
fn delete_at(alloc: Global, bytes: &[u8]) -> Option<(Change, &[u8])>
    ensures { Reads (λ x. (plain_change x.0, x.1.now)) result (delete_at bytes.now) }
{
    let Some((document, rest)) = tumbler_at(alloc, bytes) else {
        return None;
    };
    let Some((span, rest)) = span_at(alloc, rest) else {
        return None;
    };
    Some((Change::Delete { document, span }, rest))
}

#[tactic(auto, unfolding(crate::specs::Reading::rearrange_at))]
fn rearrange_at(alloc: Global, bytes: &[u8]) -> Result<Option<(Change, &[u8])>, Memory>
    ensures { ReadsIfOk (λ x. (plain_change x.0, x.1.now)) result (rearrange_at bytes.now) }
{
    let Some((document, rest)) = tumbler_at(alloc, bytes) else {
        return Ok(None);
    };
    let Some((cuts, rest)) = numbers_at(alloc, rest)? else {
        return Ok(None);
    };
    Ok(Some((Change::Rearrange { document, cuts }, rest)))
}

#[tactic(auto, unfolding(crate::specs::Reading::copy_at))]
fn copy_at(alloc: Global, bytes: &[u8]) -> Result<Option<(Change, &[u8])>, Memory>
    ensures { ReadsIfOk (λ x. (plain_change x.0, x.1.now)) result (copy_at bytes.now) }
{
    let Some((document, rest)) = tumbler_at(alloc, bytes) else {
        return Ok(None);
    };
    let Some((at, rest)) = u32_at(rest) else {
        return Ok(None);
    };
    let Some((specs, rest)) = specs_at(alloc, rest)? else {
        return Ok(None);
    };
    Ok(Some((
        Change::Copy {
            document,
            at,
            specs,
        },
        rest,
    )))
}

#[tactic(auto, unfolding(crate::specs::Reading::link_at))]
fn link_at(alloc: Global, bytes: &[u8]) -> Result<Option<(Change, &[u8])>, Memory>
    ensures { ReadsIfOk (λ x. (plain_change x.0, x.1.now)) result (link_at bytes.now) }
{
    let Some((home, rest)) = tumbler_at(alloc, bytes) else {
        return Ok(None);
    };
    let Some((number, rest)) = u32_at(rest) else {
        return Ok(None);
    };
    let Some((place, rest)) = u32_at(rest) else {
        return Ok(None);
    };
    let Some((from, rest)) = specs_at(alloc, rest)? else {
        return Ok(None);
    };
    let Some((to, rest)) = specs_at(alloc, rest)? else {
        return Ok(None);
    };
    let Some((three, rest)) = specs_at(alloc, rest)? else {
        return Ok(None);
    };
    Ok(Some((
        Change::Link {
            home,
            number,
            place,
            from,
            to,
            three,
        },
        rest,
    )))
}

#[tactic(auto, unfolding(crate::specs::Reading::publish_at))]
fn publish_at(alloc: Global, bytes: &[u8]) -> Option<(Change, &[u8])>
    ensures { Reads (λ x. (plain_change x.0, x.1.now)) result (publish_at bytes.now) }
{
    let Some((document, rest)) = tumbler_at(alloc, bytes) else {
        return None;
    };
    Some((Change::Publish { document }, rest))
}

/// The change of this kind.
#[tactic(auto, unfolding(crate::specs::Reading::change_at))]
pub(crate) fn change_at(
    alloc: Global,
    format: LogFormat,
    kind: u8,
    bytes: &[u8],
) -> Result<Option<(Change, &[u8])>, Memory>
    ensures { ReadsIfOk (λ x. (plain_change x.0, x.1.now)) result (change_at format kind bytes.now) }
{
    match kind {
        1 => Ok(create_at(alloc, bytes)),
        2 => Ok(version_at(alloc, bytes)),
        3 => Ok(open_copy_at(alloc, bytes)),
        4 => insert_at(alloc, format, bytes),
        5 => Ok(delete_at(alloc, bytes)),
        6 => rearrange_at(alloc, bytes),
        7 => copy_at(alloc, bytes),
        8 => link_at(alloc, bytes),
        9 => Ok(publish_at(alloc, bytes)),
        _ => Ok(None),
    }
}
