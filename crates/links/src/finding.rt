//! Which links are wanted.
ghost use Rattle.std.specs.Prelude.{◌≡◌, ◌≤◌, ◌++◌, take, length, All, IfOk, OnOk};
ghost use Rattle.std.specs.List.{list_any, flat_map, prefix_len};
ghost use Rattle.tumbler.specs.Places.{comes_before};
ghost use Rattle.tumbler.specs.Span.{SpanFits};
ghost use Rattle.tumbler.specs.declared.span.Span.{Span};
ghost use Rattle.world_rules.specs.Finding.{is_home_wanted};
ghost use Rattle.links.specs.LinkLists.{IsRun, IsLink, plain_link};
ghost use Rattle.spanfilade.specs.Apart.{AreApart};
ghost use Rattle.links.specs.Finding.{spans_meet, is_end_met, given, is_wanted};
ghost use Rattle.links.specs.inside.Joined.{SpansJoined, EndsJoined, IsWide};
ghost use Rattle.links.specs.inside.Kept.{shown, unboxed, taken, taken_at};

use crate::row::{LinkRow, WantedEnds};
use crate::runs::run_span;
use crate::table::Table;
use febe_data::Run;
use std::alloc::Global;
use tumbler::{List, Memory, Span, Tumbler};

/// Whether two spans have a place in common; a second one without width, whether it stands in the first.
#[tactic(auto, using(enfilade_search::proofs::Touching::touching))]
fn spans_meet(span: &Span, other: &Span) -> bool
    requires fits { SpanFits span.now }
    requires other_fits { SpanFits other.now }
    ensures { result ≡ spans_meet span.now other.now }
{
    let end = span.start.add(&span.width);
    if other.width.places().is_empty() {
        return !other.start.is_before(&span.start) && other.start.is_before(&end);
    }
    let start = if span.start.is_before(&other.start) {
        &other.start
    } else {
        &span.start
    };
    start.is_before(&end) && start.is_before(&other.start.add(&other.width))
}

/// How many of the spans start before a place.
fn starting_before(spans: &[Span], place: &Tumbler) -> usize
    requires { AreApart spans.now }
    ensures value { result ≡ prefix_len (λ (span : Span). comes_before span.start place.now) spans.now }
    ensures bound { result ≤ length spans.now }
{
    spans.partition_point(|span| span.start.is_before(place))
}

/// Whether one of the spans meets this one. Of those that start before it ends, the last one ends last.
fn meets_any(spans: &[Span], other: &Span) -> bool
    requires spans { All SpanFits spans.now }
    requires apart { AreApart spans.now }
    requires other { SpanFits other.now }
    requires wide { IsWide other.now }
    ensures { result ≡ list_any (λ span. spans_meet span other.now) spans.now }
{
    let count = starting_before(spans, &other.start.add(&other.width));
    if count == 0 {
        return false;
    }
    spans_meet(&spans[count - 1], other)
}

/// Whether a run of an end meets one of the spans that are given for it, if any are.
fn is_end_met(runs: &[Run], spans: &Option<List<Span>>) -> bool
    requires runs { All IsRun runs.now }
    requires spans { SpansJoined spans.now }
    ensures { result ≡ is_end_met (given spans.now) runs.now }
{
    let Some(spans) = spans else {
        return true;
    };
    for run in runs {
        if meets_any(spans.as_slice(), &run_span(run)) {
            return true;
        }
    }
    false
}

/// Whether the home is in one of the spans, or there is none.
fn is_home_wanted(homes: &[Span], home: &Tumbler) -> bool
    requires { All SpanFits homes.now }
    ensures { result ≡ is_home_wanted homes.now home.now }
{
    if homes.is_empty() {
        return true;
    }
    for span in homes {
        let end = span.start.add(&span.width);
        if span.start.cmp(home).is_le() && home.cmp(&end).is_lt() {
            return true;
        }
    }
    false
}

/// Whether the link's home is wanted, and each of its ends is met.
fn is_wanted(link: &LinkRow, homes: &[Span], ends: &WantedEnds) -> bool
    requires link { IsLink (plain_link link.now) }
    requires homes { All SpanFits homes.now }
    requires ends { EndsJoined ends.now }
    ensures { result ≡ is_wanted homes.now ends.now (plain_link link.now) }
{
    is_home_wanted(homes, &link.home)
        && is_end_met(link.from.as_slice(), &ends.from)
        && is_end_met(link.to.as_slice(), &ends.to)
        && is_end_met(link.three.as_slice(), &ends.three)
}

/// Adds the link's id if it is above the bound and the link is wanted.
fn take_link(
    link: &LinkRow,
    homes: &[Span],
    ends: &WantedEnds,
    after: &Tumbler,
    found: &mut List<Tumbler>,
) -> Result<(), Memory>
    requires link { IsLink (plain_link link.now) }
    requires homes { All SpanFits homes.now }
    requires ends { EndsJoined ends.now }
    ensures { OnOk result (found.new.items ≡ found.old.items ++ taken homes.now ends.now after.now (plain_link link.now)) }
{
    if !after.is_before(&link.id) {
        return Ok(());
    }
    if !is_wanted(link, homes, ends) {
        return Ok(());
    }
    found.push(link.id.copy())
}

/// Adds an id if it is above the bound and the table has a link of it that is wanted.
fn take_id(
    table: &Table,
    id: &Tumbler,
    homes: &[Span],
    ends: &WantedEnds,
    after: &Tumbler,
    found: &mut List<Tumbler>,
) -> Result<(), Memory>
    requires links { All IsLink table.now }
    requires homes { All SpanFits homes.now }
    requires ends { EndsJoined ends.now }
    ensures { OnOk result (found.new.items ≡ found.old.items ++ taken_at table.now homes.now ends.now after.now id.now) }
{
    let Some(link) = table.get(id) else {
        return Ok(());
    };
    take_link(link, homes, ends, after, found)
}

/// The first ids above the bound of these links that are wanted, up to the limit.
pub(crate) fn found_in_order(
    alloc: Global,
    links: &[Box<LinkRow>],
    homes: &[Span],
    ends: &WantedEnds,
    after: &Tumbler,
    limit: u32,
) -> Result<List<Tumbler>, Memory>
    requires links { All IsLink (unboxed links.now) }
    requires homes { All SpanFits homes.now }
    requires ends { EndsJoined ends.now }
    ensures { IfOk result (λ found. found.items ≡ take limit (flat_map (λ boxed. taken homes.now ends.now after.now (shown boxed)) links.now)) }
{
    let mut found = List::new(alloc);
    for link in links {
        if found.len() >= limit as usize {
            return Ok(found);
        }
        take_link(link, homes, ends, after, &mut found)?;
    }
    Ok(found)
}

/// Of these ids, the first that are above the bound and of wanted links of the table, up to the limit.
pub(crate) fn found_among(
    alloc: Global,
    table: &Table,
    ids: &[Tumbler],
    homes: &[Span],
    ends: &WantedEnds,
    after: &Tumbler,
    limit: u32,
) -> Result<List<Tumbler>, Memory>
    requires links { All IsLink table.now }
    requires homes { All SpanFits homes.now }
    requires ends { EndsJoined ends.now }
    ensures { IfOk result (λ found. found.items ≡ take limit (flat_map (taken_at table.now homes.now ends.now after.now) ids.now)) }
{
    let mut found = List::new(alloc);
    for id in ids {
        if found.len() >= limit as usize {
            return Ok(found);
        }
        take_id(table, id, homes, ends, after, &mut found)?;
    }
    Ok(found)
}
