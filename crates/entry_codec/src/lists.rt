//! Lists, and what has lists in it, each read from the start of the bytes: the value and the bytes after it.
ghost use Rattle.std.specs.Prelude.{◌≡◌, nat_lt, map};
ghost use Rattle.febe_data.specs.Plain.{plain_spec, plain_specs};
ghost use Rattle.febe_data.specs.Validity.{spans_in_all};
ghost use Rattle.febe_fields.specs.Reading.{Reads, ReadsIfOk, many_at};
ghost use Rattle.entry_codec.specs.Reading.{u32_at, numbers_at, tumbler_at, span_at, spans_at, spec_at, list_at, specs_at};

use crate::fields::{tumbler_at, u32_at};
use febe_data::bounds::MOST_ITEMS;
use febe_data::{List, Memory, Span, Spec};
use std::alloc::Global;

/// This many numbers.
fn many_numbers_at(
    alloc: Global,
    count: u32,
    bytes: &[u8],
) -> Result<Option<(List<u32>, &[u8])>, Memory>
    ensures { ReadsIfOk (λ x. (x.0.items, x.1.now)) result (many_at u32_at count bytes.now) }
{
    let mut numbers = List::new(alloc);
    numbers.reserve(count as usize)?;
    let mut rest = bytes;
    for _ in 0..count {
        let Some((number, behind)) = u32_at(rest) else {
            return Ok(None);
        };
        numbers.push_reserved(number);
        rest = behind;
    }
    Ok(Some((numbers, rest)))
}

/// A list of numbers, at most 65,536. Memory for all of them is asked for before the first is read; so it is with the
/// lists below.
#[tactic(auto, unfolding(crate::specs::Reading::list_at))]
pub(crate) fn numbers_at(alloc: Global, bytes: &[u8]) -> Result<Option<(List<u32>, &[u8])>, Memory>
    ensures { ReadsIfOk (λ x. (x.0.items, x.1.now)) result (numbers_at bytes.now) }
{
    let Some((count, rest)) = u32_at(bytes) else {
        return Ok(None);
    };
    if count > MOST_ITEMS {
        return Ok(None);
    }
    many_numbers_at(alloc, count, rest)
}

/// A span: its start and its width.
#[tactic(auto, unfolding(crate::specs::Reading::span_at))]
pub(crate) fn span_at(alloc: Global, bytes: &[u8]) -> Option<(Span, &[u8])>
    ensures { Reads (λ x. (x.0, x.1.now)) result (span_at bytes.now) }
{
    let Some((start, rest)) = tumbler_at(alloc, bytes) else {
        return None;
    };
    let Some((width, rest)) = tumbler_at(alloc, rest) else {
        return None;
    };
    Some((Span { start, width }, rest))
}

/// This many spans.
fn many_spans_at(
    alloc: Global,
    count: u32,
    bytes: &[u8],
) -> Result<Option<(List<Span>, &[u8])>, Memory>
    ensures { ReadsIfOk (λ x. (x.0.items, x.1.now)) result (many_at span_at count bytes.now) }
{
    let mut spans = List::new(alloc);
    spans.reserve(count as usize)?;
    let mut rest = bytes;
    for _ in 0..count {
        let Some((span, behind)) = span_at(alloc, rest) else {
            return Ok(None);
        };
        spans.push_reserved(span);
        rest = behind;
    }
    Ok(Some((spans, rest)))
}

/// A list of spans, at most 65,536.
#[tactic(auto, unfolding(crate::specs::Reading::list_at))]
fn spans_at(alloc: Global, bytes: &[u8]) -> Result<Option<(List<Span>, &[u8])>, Memory>
    ensures { ReadsIfOk (λ x. (x.0.items, x.1.now)) result (spans_at bytes.now) }
{
    let Some((count, rest)) = u32_at(bytes) else {
        return Ok(None);
    };
    if count > MOST_ITEMS {
        return Ok(None);
    }
    many_spans_at(alloc, count, rest)
}

/// A spec: its document and its spans, at most 65,536.
#[tactic(auto, unfolding(crate::specs::Reading::spec_at))]
fn spec_at(alloc: Global, bytes: &[u8]) -> Result<Option<(Spec, &[u8])>, Memory>
    ensures { ReadsIfOk (λ x. (plain_spec x.0, x.1.now)) result (spec_at bytes.now) }
{
    let Some((document, rest)) = tumbler_at(alloc, bytes) else {
        return Ok(None);
    };
    let Some((spans, rest)) = spans_at(alloc, rest)? else {
        return Ok(None);
    };
    Ok(Some((Spec { document, spans }, rest)))
}

/// This many specs.
fn many_specs_at(
    alloc: Global,
    count: u32,
    bytes: &[u8],
) -> Result<Option<(List<Spec>, &[u8])>, Memory>
    ensures { ReadsIfOk (λ x. (plain_specs x.0.items, x.1.now)) result (many_at spec_at count bytes.now) }
{
    let mut specs = List::new(alloc);
    specs.reserve(count as usize)?;
    let mut rest = bytes;
    for _ in 0..count {
        let Some((spec, behind)) = spec_at(alloc, rest)? else {
            return Ok(None);
        };
        specs.push_reserved(spec);
        rest = behind;
    }
    Ok(Some((specs, rest)))
}

/// Specs, at most 65,536.
#[tactic(auto, unfolding(crate::specs::Reading::list_at))]
fn spec_list_at(alloc: Global, bytes: &[u8]) -> Result<Option<(List<Spec>, &[u8])>, Memory>
    ensures { ReadsIfOk (λ x. (plain_specs x.0.items, x.1.now)) result (list_at spec_at bytes.now) }
{
    let Some((count, rest)) = u32_at(bytes) else {
        return Ok(None);
    };
    if count > MOST_ITEMS {
        return Ok(None);
    }
    many_specs_at(alloc, count, rest)
}

/// Whether there are more than 65,536 spans in all the specs together.
fn has_many_spans(specs: &[Spec]) -> bool
    ensures { result ≡ nat_lt 65536 (spans_in_all (plain_specs specs.now)) }
{
    let mut room = MOST_ITEMS as usize;
    for spec in specs {
        let spans = spec.spans.len();
        if spans > room {
            return true;
        }
        room -= spans;
    }
    false
}

/// A list of specs, at most 65,536, with so many spans in all of them together.
#[tactic(auto, unfolding(crate::specs::Reading::specs_at))]
pub(crate) fn specs_at(alloc: Global, bytes: &[u8]) -> Result<Option<(List<Spec>, &[u8])>, Memory>
    ensures { ReadsIfOk (λ x. (plain_specs x.0.items, x.1.now)) result (specs_at bytes.now) }
{
    let Some((specs, rest)) = spec_list_at(alloc, bytes)? else {
        return Ok(None);
    };
    if has_many_spans(specs.as_slice()) {
        return Ok(None);
    }
    Ok(Some((specs, rest)))
}
