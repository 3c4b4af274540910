//! Lists, and what has lists in it, each read from the start of the bytes: the value and the bytes after it.
ghost use Rattle.febe_data.specs.Plain.{plain_spec, plain_specs};
ghost use Rattle.febe_fields.specs.Reading.{Reads, ReadsIfOk, tumbler_at, many_at, list_at, tumblers_at, span_at, spans_at, spec_at, specs_at};

use crate::fields::{number_at, tumbler_at};
use febe_data::Spec;
use febe_data::bounds::MOST_ITEMS;
use std::alloc::Global;
use tumbler::{List, Memory, Span, Tumbler};

/// This many tumblers.
fn many_tumblers_at(
    alloc: Global,
    count: u32,
    bytes: &[u8],
) -> Result<Option<(List<Tumbler>, &[u8])>, Memory>
    ensures { ReadsIfOk (λ x. (x.0.items, x.1.now)) result (many_at tumbler_at count bytes.now) }
{
    let mut tumblers = List::new(alloc);
    tumblers.reserve(count as usize)?;
    let mut rest = bytes;
    for _ in 0..count {
        let Some(read) = tumbler_at(alloc, rest) else {
            return Ok(None);
        };
        let (tumbler, behind) = read;
        tumblers.push_reserved(tumbler);
        rest = behind;
    }
    Ok(Some((tumblers, rest)))
}

/// A list of tumblers, at most 65,536. `None` where there is none in front; memory for all of them is asked for
/// before the first is read.
#[tactic(auto, unfolding(crate::specs::Reading::list_at))]
pub fn tumblers_at(alloc: Global, bytes: &[u8]) -> Result<Option<(List<Tumbler>, &[u8])>, Memory>
    ensures { ReadsIfOk (λ x. (x.0.items, x.1.now)) result (tumblers_at bytes.now) }
{
    let Some((count, rest)) = number_at(bytes) else {
        return Ok(None);
    };
    if count > MOST_ITEMS {
        return Ok(None);
    }
    many_tumblers_at(alloc, count, rest)
}

/// A span: its start and its width.
#[tactic(auto, unfolding(crate::specs::Reading::span_at))]
pub fn span_at(alloc: Global, bytes: &[u8]) -> Option<(Span, &[u8])>
    ensures { Reads (λ x. (x.0, x.1.now)) result (span_at bytes.now) }
{
    let Some((start, rest)) = tumbler_at(alloc, bytes) else {
        return None;
    };
    let Some((width, rest)) = tumbler_at(alloc, rest) else {
        return None;
    };
    Some((Span { start, width }, rest))
}

/// This many spans.
fn many_spans_at(
    alloc: Global,
    count: u32,
    bytes: &[u8],
) -> Result<Option<(List<Span>, &[u8])>, Memory>
    ensures { ReadsIfOk (λ x. (x.0.items, x.1.now)) result (many_at span_at count bytes.now) }
{
    let mut spans = List::new(alloc);
    spans.reserve(count as usize)?;
    let mut rest = bytes;
    for _ in 0..count {
        let Some((span, behind)) = span_at(alloc, rest) else {
            return Ok(None);
        };
        spans.push_reserved(span);
        rest = behind;
    }
    Ok(Some((spans, rest)))
}

/// A list of spans, at most 65,536. `None` where there is none in front; memory for all of them is asked for
/// before the first is read.
#[tactic(auto, unfolding(crate::specs::Reading::list_at))]
pub fn spans_at(alloc: Global, bytes: &[u8]) -> Result<Option<(List<Span>, &[u8])>, Memory>
    ensures { ReadsIfOk (λ x. (x.0.items, x.1.now)) result (spans_at bytes.now) }
{
    let Some((count, rest)) = number_at(bytes) else {
        return Ok(None);
    };
    if count > MOST_ITEMS {
        return Ok(None);
    }
    many_spans_at(alloc, count, rest)
}

/// A spec: its document and its spans, at most 65,536.
#[tactic(auto, unfolding(crate::specs::Reading::spec_at))]
pub fn spec_at(alloc: Global, bytes: &[u8]) -> Result<Option<(Spec, &[u8])>, Memory>
    ensures { ReadsIfOk (λ x. (plain_spec x.0, x.1.now)) result (spec_at bytes.now) }
{
    let Some((document, rest)) = tumbler_at(alloc, bytes) else {
        return Ok(None);
    };
    let Some((spans, rest)) = spans_at(alloc, rest)? else {
        return Ok(None);
    };
    Ok(Some((Spec { document, spans }, rest)))
}

/// This many specs.
fn many_specs_at(
    alloc: Global,
    count: u32,
    bytes: &[u8],
) -> Result<Option<(List<Spec>, &[u8])>, Memory>
    ensures { ReadsIfOk (λ x. (plain_specs x.0.items, x.1.now)) result (many_at spec_at count bytes.now) }
{
    let mut specs = List::new(alloc);
    specs.reserve(count as usize)?;
    let mut rest = bytes;
    for _ in 0..count {
        let Some((spec, behind)) = spec_at(alloc, rest)? else {
            return Ok(None);
        };
        specs.push_reserved(spec);
        rest = behind;
    }
    Ok(Some((specs, rest)))
}

/// A list of specs, at most 65,536. `None` where there is none in front; memory for all of them is asked for
/// before the first is read.
#[tactic(auto, unfolding(crate::specs::Reading::list_at))]
pub fn specs_at(alloc: Global, bytes: &[u8]) -> Result<Option<(List<Spec>, &[u8])>, Memory>
    ensures { ReadsIfOk (λ x. (plain_specs x.0.items, x.1.now)) result (specs_at bytes.now) }
{
    let Some((count, rest)) = number_at(bytes) else {
        return Ok(None);
    };
    if count > MOST_ITEMS {
        return Ok(None);
    }
    many_specs_at(alloc, count, rest)
}
