//! Where a document shows content.
ghost use Rattle.std.specs.Prelude.{◌≡◌, ℕ, [], ◌+◌, ◌^◌, ◌<◌, ◌≤◌, ◌++◌, nat_lt, length, All, IfOk, OnOk};
ghost use Rattle.tumbler.specs.Places.{comes_before};
ghost use Rattle.tumbler.specs.Span.{SpanFits};
ghost use Rattle.enfilade_core.specs.Rows.{rows_of};
ghost use Rattle.poom.specs.Laid.{IsRoot, part_number};
ghost use Rattle.poom.specs.Runs.{intervals};
ghost use Rattle.poom.specs.Shown.{intervals_in};
ghost use Rattle.poom.specs.Positions.{positions_of, IsInterval, shown_by, shown_by_all, IsPieceRow, so_far_on, StandFor};

use crate::exchange::position;
use crate::part::Part;
use crate::poom::Poom;
use enfilade_core::{Node, Row};
use enfilade_search::meeting;
use std::alloc::Global;
use tumbler::laws::is_tumbler;
use tumbler::{List, Memory, Span, Tumbler};

/// Positions of a part that follow each other. There may be none.
#[derive(Clone, Copy, Debug)]
struct Interval {
    start: u32,
    count: u32,
}

/// How many of so many addresses from one on come before a place. They differ in the last place alone.
#[tactic(auto, using(crate::proofs::Counting::counting))]
fn count_before(first: &Tumbler, count: u32, at: &Tumbler) -> u32
    requires filled { 1 ≤ length first.now }
    ensures within { result ≤ count }
    ensures each { (k : ℕ) → k < count → comes_before (so_far_on first.now k) at.now ≡ nat_lt k result }
{
    if !first.is_before(at) {
        return 0;
    }
    let own = first.places();
    let places = at.places();
    let n = own.len() - 1;
    if places.len() <= n {
        return count;
    }
    if places.split_at(n).0 != own.split_at(n).0 {
        return count;
    }
    let less = places[n] - own[n];
    if count <= less {
        return count;
    }
    if places.len() == n + 1 {
        return less;
    }
    less + 1
}

/// The positions at which a row shows an address of the span, none where it stands in the other part.
#[tactic(auto, using(crate::proofs::Clips::clips))]
fn shown_by(part: Part, row: &Row<u32>, span: &Span) -> Interval
    requires row { IsPieceRow row.now }
    requires fits { SpanFits span.now }
    ensures positions { positions_of result ≡ shown_by (part_number part) span.now row.now }
    ensures well_formed { IsInterval result }
{
    let places = row.first.places();
    let start = places[1];
    if places[0] != part.number() {
        return Interval { start, count: 0 };
    }
    let from = count_before(&row.second, row.leaf, &span.start);
    let to = count_before(&row.second, row.leaf, &span.start.add(&span.width));
    Interval {
        start: start + from,
        count: to.saturating_sub(from),
    }
}

/// Adds the span of an interval, if it has positions.
#[tactic(auto, using(crate::proofs::Intervals::closing))]
fn close(alloc: Global, spans: &mut List<Span>, part: Part, held: Interval) -> Result<(), Memory>
    requires { IsInterval held }
    ensures { OnOk result (spans.new.items ≡ spans.old.items ++ intervals (part_number part) (positions_of held)) }
{
    if held.count == 0 {
        return Ok(());
    }
    spans.push(Span {
        start: position(alloc, part, held.start),
        width: Tumbler::width(alloc, 2, held.count),
    })?;
    Ok(())
}

/// The interval that is held back once another comes behind it: both as one where they touch. Where they do not, the
/// span of the first one is added.
#[tactic(auto, using(crate::proofs::Intervals::following))]
fn follow(
    alloc: Global,
    spans: &mut List<Span>,
    part: Part,
    held: Interval,
    next: Interval,
) -> Result<Interval, Memory>
    requires held { IsInterval held }
    requires next { IsInterval next }
    ensures stand { IfOk result (λ now. StandFor (part_number part) spans.old.items (positions_of held ++ positions_of next) spans.new.items now) }
    ensures well_formed { IfOk result IsInterval }
{
    if next.count == 0 {
        return Ok(held);
    }
    if held.start + held.count == next.start {
        return Ok(Interval {
            start: held.start,
            count: held.count + next.count,
        });
    }
    close(alloc, spans, part, held)?;
    Ok(next)
}

/// Adds the spans of what rows show in a part.
#[tactic(auto, using(crate::proofs::Intervals::showing))]
fn show(
    alloc: Global,
    spans: &mut List<Span>,
    part: Part,
    rows: &[Row<u32>],
    span: &Span,
) -> Result<(), Memory>
    requires rows { All IsPieceRow rows.now }
    requires fits { SpanFits span.now }
    ensures { OnOk result (spans.new.items ≡ spans.old.items ++ intervals (part_number part) (shown_by_all (part_number part) span.now rows.now)) }
{
    let mut held = Interval { start: 1, count: 0 };
    for row in rows {
        held = follow(alloc, spans, part, held, shown_by(part, row, span))?;
    }
    close(alloc, spans, part, held)?;
    Ok(())
}

impl Poom {
    /// Where the document shows what a span of I-addresses has: the maximal intervals of V-addresses, those of the
    /// text first, in V order. Content that stands in several places is found in each of them.
    ///
    /// It looks at those nodes alone whose content can reach into the span.
    #[tactic(auto, using(crate::proofs::Showing::found))]
    pub fn v_of(&self, root: Node, span: &Span) -> Result<List<Span>, Memory>
        requires root { IsRoot self.now root.0 }
        requires fits { SpanFits span.now }
        ensures { IfOk result (λ found. found.items ≡ intervals_in span.now (rows_of self.now root.0)) }
    {
        is_tumbler(&span.start);
        let rows = meeting(&self.arena, root, span)?;
        let mut spans = List::new(self.alloc);
        show(self.alloc, &mut spans, Part::Text, rows.as_slice(), span)?;
        show(self.alloc, &mut spans, Part::Links, rows.as_slice(), span)?;
        Ok(spans)
    }
}
