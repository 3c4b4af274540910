//! Spans that are joined where they touch, so that many equal ones cost as one.
ghost use Rattle.std.specs.Prelude.{◌≡◌, ◌||◌, ℕ, List as ListOf, All, IfOk, IfSome, IfNone, OnOk};
ghost use Rattle.std.specs.List.Sorted.{IsPermutation};
ghost use Rattle.tumbler.specs.Places.{IsBefore, IsUpTo, comes_before};
ghost use Rattle.tumbler.specs.Span.{SpanFits, end_of};
ghost use Rattle.enfilade_core.specs.declared.tree.Row.{Row};
ghost use Rattle.enfilade_core.specs.Axes.{later};
ghost use Rattle.spanfilade.specs.Apart.{AreApart, IsByStart, IsJoined};
ghost use Rattle.spanfilade.specs.Keys.{is_met, is_met_by};

use std::alloc::Global;
use tumbler::laws::is_tumbler;
use tumbler::{List, Memory, Span, Tumbler};

/// The one of two places that comes later.
pub(crate) fn later(a: &Tumbler, b: &Tumbler) -> Tumbler
    ensures { result ≡ later a.now b.now }
{
    if a.is_before(b) { b.copy() } else { a.copy() }
}

/// Both spans as one, if the second begins in the first or right behind it.
fn as_one(first: &Span, second: &Span) -> Option<Span>
    requires first { SpanFits first.now }
    requires second { SpanFits second.now }
    requires order { IsUpTo first.now.start second.now.start }
    ensures fits { IfSome result SpanFits }
    ensures met { IfSome result (λ made. (row : Row (ListOf ℕ)) → is_met made row ≡ (is_met first.now row || is_met second.now row)) }
    ensures begins { IfSome result (λ made. made.start ≡ first.now.start) }
    ensures reaches { IfSome result (λ made. IsUpTo (end_of first.now) (end_of made)) }
    ensures apart { IfNone result (IsBefore (end_of first.now) second.now.start) }
{
    let end = first.start.add(&first.width);
    if end.is_before(&second.start) {
        return None;
    }
    let end = later(&end, &second.start.add(&second.width));
    is_tumbler(&end);
    Some(Span {
        start: first.start.copy(),
        width: end.minus(&first.start),
    })
}

/// Whether some place is in the span.
fn has_places(span: &Span) -> bool
    requires { SpanFits span.now }
    ensures { result ≡ comes_before span.now.start (end_of span.now) }
{
    span.start.is_before(&span.start.add(&span.width))
}

/// Adds a span behind the others, or to the last one where the two can be one. It is left out where no place is
/// in it.
fn push_joined(made: &mut List<Span>, span: &Span) -> Result<(), Memory>
    requires made { IsJoined span.now.start made.old.items }
    requires span { SpanFits span.now }
    ensures joined { OnOk result (IsJoined span.now.start made.new.items) }
    ensures met { OnOk result ((row : Row (ListOf ℕ)) → is_met_by made.new.items row ≡ (is_met_by made.old.items row || is_met span.now row)) }
{
    if !has_places(span) {
        return Ok(());
    }
    let count = made.len();
    if count == 0 {
        return made.push(span.copy());
    }
    let Some(one) = as_one(&made.as_slice()[count - 1], span) else {
        return made.push(span.copy());
    };
    made.truncate(count - 1);
    made.push(one)
}

/// The spans in the order of their starts.
pub(crate) fn by_start(alloc: Global, spans: &[Span]) -> Result<Vec<Span>, Memory>
    ensures moved { IfOk result (λ made. IsPermutation spans.now made.items) }
    ensures sorted { IfOk result (λ made. IsByStart made.items) }
{
    let mut made = Vec::new(alloc);
    made.reserve(spans.len())?;
    for span in spans {
        made.push(span.copy())?;
    }
    made.sort_by(|a, b| a.start.cmp(&b.start))?;
    Ok(made)
}

/// Spans that are met where one of these is, sorted and joined where they touch, so that each ends before the next
/// one begins.
pub fn joined(alloc: Global, spans: &[Span]) -> Result<List<Span>, Memory>
    requires { All SpanFits spans.now }
    ensures fits { IfOk result (λ made. All SpanFits made.items) }
    ensures apart { IfOk result (λ made. AreApart made.items) }
    ensures met { IfOk result (λ made. (row : Row (ListOf ℕ)) → is_met_by made.items row ≡ is_met_by spans.now row) }
{
    let sorted = by_start(alloc, spans)?;
    let mut made = List::new(alloc);
    for span in sorted.as_slice() {
        push_joined(&mut made, span)?;
    }
    Ok(made)
}
