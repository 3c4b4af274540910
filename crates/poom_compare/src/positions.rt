//! Positions that spans pick.
ghost use Rattle.std.specs.Prelude.{◌≡◌, ℕ, ◌+◌, ◌<◌, ◌≤◌, ◌++◌, ◌∷◌, [], length, All, IfOk, OnOk};
ghost use Rattle.std.specs.List.{list_any};
ghost use Rattle.std.specs.List.Sorted.{IsNonDecreasingBy};
ghost use Rattle.tumbler.specs.Span.{SpanFits};
ghost use Rattle.poom.specs.Bounds.{IsBound};
ghost use Rattle.poom_compare.specs.Placed.{is_in, is_in_some, is_picked_at, is_picked_at_by, IsIntervalOf, IsInterval, AreApart, AreIntervalsOf};

use std::alloc::Global;
use tumbler::{Memory, Span, Tumbler};

/// Text positions from one up to another, which is not among them.
#[derive(Clone, Copy, Debug)]
pub struct Interval {
    pub from: u32,
    pub to: u32,
}

/// The first position of a text that does not come before a place, or one past the end.
#[tactic(auto, using(poom::proofs::Bounded::bounded))]
fn bound(place: &Tumbler, length: u32) -> u32
    requires { length ≤ 1073741824 }
    ensures { IsBound 1 place.now length result }
{
    let places = place.places();
    if places.is_empty() {
        return 1;
    }
    if 1 < places[0] {
        return length + 1;
    }
    if places[0] < 1 {
        return 1;
    }
    if places.len() == 1 {
        return 1;
    }
    if length < places[1] {
        return length + 1;
    }
    if places.len() == 2 {
        return places[1].max(1);
    }
    places[1] + 1
}

/// The positions of a text that a span picks.
fn interval_of(span: &Span, length: u32) -> Interval
    requires fits { SpanFits span.now }
    requires few { length ≤ 1073741824 }
    ensures { IsIntervalOf length span.now result }
{
    Interval {
        from: bound(&span.start, length),
        to: bound(&span.start.add(&span.width), length),
    }
}

/// The positions of a text that spans pick: one interval for each span, in their order, but none for a span that picks
/// nothing.
fn intervals(alloc: Global, spans: &[Span], length: u32) -> Result<Vec<Interval>, Memory>
    requires fits { All SpanFits spans.now }
    requires few { length ≤ 1073741824 }
    ensures each { IfOk result (λ made. All (IsInterval length) made.items) }
    ensures same { IfOk result (λ made. (n : ℕ) → 1 ≤ n → n ≤ length → is_in_some made.items n ≡ is_picked_at_by spans.now n) }
{
    let mut made = Vec::new(alloc);
    for span in spans {
        let interval = interval_of(span, length);
        if interval.from < interval.to {
            made.push(interval)?;
        }
    }
    Ok(made)
}

/// Adds an interval that does not begin before the others, or makes the last one longer where the two touch.
fn push_joined(made: &mut Vec<Interval>, interval: Interval, length: u32) -> Result<(), Memory>
    requires each { All (IsInterval length) made.old.items }
    requires apart { AreApart made.old.items }
    requires interval { IsInterval length interval }
    requires behind { All (λ (before : Interval). before.from ≤ interval.from) made.old.items }
    ensures each { OnOk result (All (IsInterval length) made.new.items) }
    ensures apart { OnOk result (AreApart made.new.items) }
    ensures behind { OnOk result (All (λ (before : Interval). before.from ≤ interval.from) made.new.items) }
    ensures same { OnOk result ((n : ℕ) → is_in_some made.new.items n ≡ list_any (is_in n) (made.old.items ++ interval ∷ [])) }
{
    let Some(last) = made.pop() else {
        made.push(interval)?;
        return Ok(());
    };
    if interval.from <= last.to {
        made.push(Interval {
            from: last.from,
            to: last.to.max(interval.to),
        })?;
        return Ok(());
    }
    made.push(last)?;
    made.push(interval)?;
    Ok(())
}

/// The positions of some intervals, as few intervals as can be, in their order. Those that are given many times cost as
/// one.
pub fn joined(alloc: Global, intervals: Vec<Interval>, length: u32) -> Result<Vec<Interval>, Memory>
    requires { All (IsInterval length) intervals.items }
    ensures each { IfOk result (λ made. All (IsInterval length) made.items) }
    ensures apart { IfOk result (λ made. AreApart made.items) }
    ensures same { IfOk result (λ made. (n : ℕ) → is_in_some made.items n ≡ is_in_some intervals.items n) }
{
    let mut sorted = intervals;
    sorted.sort_by_key(|interval| interval.from)?;
    let mut made = Vec::new(alloc);
    for interval in sorted.as_slice() {
        push_joined(&mut made, *interval, length)?;
    }
    Ok(made)
}

/// The positions of a text that some spans pick, as few intervals as can be, in their order.
///
/// So each position is looked at once, and spans that are given many times cost as one.
pub(crate) fn picked(alloc: Global, spans: &[Span], length: u32) -> Result<Vec<Interval>, Memory>
    requires fits { All SpanFits spans.now }
    requires few { length ≤ 1073741824 }
    ensures { IfOk result (λ made. AreIntervalsOf length spans.now made.items) }
{
    let all = intervals(alloc, spans, length)?;
    let made = joined(alloc, all, length)?;
    Ok(made)
}
