//! Requests that open documents and ask what is in them, each read from behind its number: the request and the
//! bytes after it.
ghost use Rattle.febe_data.specs.Plain.{plain_request};
ghost use Rattle.febe_fields.specs.Reading.{Reads, ReadsIfOk};
ghost use Rattle.febe_wire.specs.inside.Reading.{open_at, with_tumbler_at, with_specs_at, relate_at};

use febe_data::Request;
use febe_fields::{mode_at, rule_at, spec_at, specs_at, tumbler_at};
use std::alloc::Global;
use tumbler::Memory;

#[tactic(auto, unfolding(crate::specs::inside::Reading::open_at))]
pub(crate) fn open_at(alloc: Global, bytes: &[u8]) -> Option<(Request, &[u8])>
    ensures { Reads (λ x. (plain_request x.0, x.1.now)) result (open_at bytes.now) }
{
    let Some((document, rest)) = tumbler_at(alloc, bytes) else {
        return None;
    };
    let (mode, rest) = mode_at(rest)?;
    let (rule, rest) = rule_at(rest)?;
    Some((
        Request::Open {
            document,
            mode,
            rule,
        },
        rest,
    ))
}

/// The request of this number, where it is one that gives a tumbler alone.
#[tactic(auto, unfolding(crate::specs::inside::Reading::with_tumbler_at))]
pub(crate) fn with_tumbler_at(alloc: Global, number: u32, bytes: &[u8]) -> Option<(Request, &[u8])>
    ensures { Reads (λ x. (plain_request x.0, x.1.now)) result (with_tumbler_at number bytes.now) }
{
    let Some((places, rest)) = tumbler_at(alloc, bytes) else {
        return None;
    };
    match number {
        1 => Some((Request::SpanSet { document: places }, rest)),
        13 => Some((Request::Version { document: places }, rest)),
        14 => Some((Request::WholeSpan { document: places }, rest)),
        34 => Some((Request::Account { account: places }, rest)),
        36 => Some((Request::Close { document: places }, rest)),
        40 => Some((Request::Publish { document: places }, rest)),
        _ => None,
    }
}

/// The request of this number, where it is one that gives specs alone.
#[tactic(auto, unfolding(crate::specs::inside::Reading::with_specs_at))]
pub(crate) fn with_specs_at(
    alloc: Global,
    number: u32,
    bytes: &[u8],
) -> Result<Option<(Request, &[u8])>, Memory>
    ensures { ReadsIfOk (λ x. (plain_request x.0, x.1.now)) result (with_specs_at number bytes.now) }
{
    let Some((specs, rest)) = specs_at(alloc, bytes)? else {
        return Ok(None);
    };
    match number {
        5 => Ok(Some((Request::Retrieve { specs }, rest))),
        22 => Ok(Some((Request::FindDocuments { specs }, rest))),
        28 => Ok(Some((Request::EndSets { specs }, rest))),
        _ => Ok(None),
    }
}

#[tactic(auto, unfolding(crate::specs::inside::Reading::relate_at))]
pub(crate) fn relate_at(alloc: Global, bytes: &[u8]) -> Result<Option<(Request, &[u8])>, Memory>
    ensures { ReadsIfOk (λ x. (plain_request x.0, x.1.now)) result (relate_at bytes.now) }
{
    let Some((left, rest)) = spec_at(alloc, bytes)? else {
        return Ok(None);
    };
    let Some((right, rest)) = spec_at(alloc, rest)? else {
        return Ok(None);
    };
    Ok(Some((Request::Relate { left, right }, rest)))
}
