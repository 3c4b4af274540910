//! Requests that edit a document, each read from behind its number: the request and the bytes after it.
ghost use Rattle.febe_data.specs.Plain.{plain_request};
ghost use Rattle.febe_fields.specs.Reading.{Reads, ReadsIfOk};
ghost use Rattle.febe_wire.specs.inside.Reading.{insert_at, copy_at, rearrange_at, delete_at};

use febe_data::Request;
use febe_fields::{span_at, specs_at, text_at, tumbler_at, tumblers_at};
use std::alloc::Global;
use tumbler::{List, Memory};

#[tactic(auto, unfolding(crate::specs::inside::Reading::insert_at))]
pub(crate) fn insert_at(alloc: Global, bytes: &[u8]) -> Result<Option<(Request, &[u8])>, Memory>
    ensures { ReadsIfOk (λ x. (plain_request x.0, x.1.now)) result (insert_at bytes.now) }
{
    let Some((document, rest)) = tumbler_at(alloc, bytes) else {
        return Ok(None);
    };
    let Some((at, rest)) = tumbler_at(alloc, rest) else {
        return Ok(None);
    };
    let Some((text, rest)) = text_at(rest) else {
        return Ok(None);
    };
    let text = List::from_slice(alloc, text)?;
    Ok(Some((Request::Insert { document, at, text }, rest)))
}

#[tactic(auto, unfolding(crate::specs::inside::Reading::copy_at))]
pub(crate) fn copy_at(alloc: Global, bytes: &[u8]) -> Result<Option<(Request, &[u8])>, Memory>
    ensures { ReadsIfOk (λ x. (plain_request x.0, x.1.now)) result (copy_at bytes.now) }
{
    let Some((document, rest)) = tumbler_at(alloc, bytes) else {
        return Ok(None);
    };
    let Some((at, rest)) = tumbler_at(alloc, rest) else {
        return Ok(None);
    };
    let Some((specs, rest)) = specs_at(alloc, rest)? else {
        return Ok(None);
    };
    Ok(Some((
        Request::Copy {
            document,
            at,
            specs,
        },
        rest,
    )))
}

#[tactic(auto, unfolding(crate::specs::inside::Reading::rearrange_at))]
pub(crate) fn rearrange_at(alloc: Global, bytes: &[u8]) -> Result<Option<(Request, &[u8])>, Memory>
    ensures { ReadsIfOk (λ x. (plain_request x.0, x.1.now)) result (rearrange_at bytes.now) }
{
    let Some((document, rest)) = tumbler_at(alloc, bytes) else {
        return Ok(None);
    };
    let Some((cuts, rest)) = tumblers_at(alloc, rest)? else {
        return Ok(None);
    };
    Ok(Some((Request::Rearrange { document, cuts }, rest)))
}

#[tactic(auto, unfolding(crate::specs::inside::Reading::delete_at))]
pub(crate) fn delete_at(alloc: Global, bytes: &[u8]) -> Option<(Request, &[u8])>
    ensures { Reads (λ x. (plain_request x.0, x.1.now)) result (delete_at bytes.now) }
{
    let Some((document, rest)) = tumbler_at(alloc, bytes) else {
        return None;
    };
    let Some((span, rest)) = span_at(alloc, rest) else {
        return None;
    };
    Some((Request::Delete { document, span }, rest))
}
