//! The spans of a document's two parts.
ghost use Rattle.std.specs.Prelude.{◌≡◌, ◌+◌, ◌≤◌, [], ◌∷◌, ◌++◌, length, IfOk, OnOk};
ghost use Rattle.tumbler.specs.Places.{IsTumbler};
ghost use Rattle.febe_data.specs.Validity.{IsSpan, IsList};
ghost use Rattle.world_rules.specs.Answers.{span_of_part, span_over};

use crate::errors::WorldError;
use febe_data::{List, Span, Tumbler};
use std::alloc::Global;

/// The number as a place of an address.
fn place_of(number: usize) -> Result<u32, WorldError>
    ensures { IfOk result (λ place. place ≡ number) }
{
    u32::try_from(number).map_err(|_| WorldError::TooGreat)
}

/// The address of these two places.
fn pair_of(alloc: Global, first: u32, second: u32) -> Result<Tumbler, WorldError>
    ensures value { IfOk result (λ tumbler. tumbler ≡ first ∷ second ∷ []) }
    ensures valid { IfOk result IsTumbler }
{
    let tumbler = Tumbler::from_places(alloc, &[first, second]).map_err(|_| WorldError::NoTumbler)?;
    let _ = tumbler.places();
    Ok(tumbler)
}

/// So many positions of a part, from this one on.
pub fn span_from(alloc: Global, part: u32, first: u32, count: u32) -> Result<Span, WorldError>
    ensures value { IfOk result (λ span. span ≡ record { start = part ∷ first ∷ []; width = 0 ∷ count ∷ [] }) }
    ensures valid { IfOk result IsSpan }
{
    Ok(Span {
        start: pair_of(alloc, part, first)?,
        width: pair_of(alloc, 0, count)?,
    })
}

/// Adds the span of so many positions of a part, where there are any.
pub(crate) fn push_part(
    alloc: Global,
    spans: &mut List<Span>,
    part: u32,
    count: usize,
) -> Result<(), WorldError>
    ensures items { OnOk result (spans.new.items ≡ spans.old.items ++ span_of_part part count) }
    ensures valid { OnOk result (IsList IsSpan spans.old.items → length spans.old.items + 1 ≤ 65536 → IsList IsSpan spans.new.items) }
{
    if count == 0 {
        return Ok(());
    }
    spans.push(span_from(alloc, part, 1, place_of(count)?)?)?;
    Ok(())
}

/// The span over so many positions of the text and so many of the links.
pub(crate) fn span_over(alloc: Global, texts: usize, links: usize) -> Result<Span, WorldError>
    ensures value { IfOk result (λ span. span ≡ span_over links (span_of_part 1 texts ++ span_of_part 2 links)) }
    ensures valid { IfOk result IsSpan }
{
    if links == 0 {
        return text_span(alloc, texts);
    }
    let links = place_of(links)?;
    if texts == 0 {
        return span_from(alloc, 2, 1, links);
    }
    Ok(Span {
        start: pair_of(alloc, 1, 1)?,
        width: pair_of(alloc, 1, links.checked_add(1).ok_or(WorldError::TooGreat)?)?,
    })
}

/// The span of so many positions of the text, or that of no places where there are none.
fn text_span(alloc: Global, texts: usize) -> Result<Span, WorldError>
    ensures value { IfOk result (λ span. span ≡ span_over 0 (span_of_part 1 texts)) }
    ensures valid { IfOk result IsSpan }
{
    if texts != 0 {
        return span_from(alloc, 1, 1, place_of(texts)?);
    }
    Ok(Span {
        start: zero(alloc),
        width: zero(alloc),
    })
}

fn zero(alloc: Global) -> Tumbler
    ensures value { result ≡ [] }
    ensures valid { IsTumbler result }
{
    let tumbler = Tumbler::zero(alloc);
    let _ = tumbler.places();
    tumbler
}
