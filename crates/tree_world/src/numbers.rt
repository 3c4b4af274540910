//! Which bytes of contents are in an end of links, by their numbers.
ghost use Rattle.std.specs.Prelude.{◌≡◌, ℕ, ◌+◌, ◌-◌, ◌<◌, ◌≤◌, Some, length, take, drop, All, IfOk, OnOk};
ghost use Rattle.std.specs.List.{list_any};
ghost use Rattle.std.specs.Ordering.{nat_cmp};
ghost use Rattle.std.specs.Cmp.Lexicographic.{slice_cmp};
ghost use Rattle.std.specs.BTreeMap.{get};
ghost use Rattle.poom_compare.specs.declared.positions.Interval.{Interval};
ghost use Rattle.poom_compare.specs.Placed.{is_in, is_in_some, IsInterval, AreApart, IsPlaced};
ghost use Rattle.world_rules.specs.Picking.{number_of};
ghost use Rattle.tree_world.specs.inside.InEnds.{names_number, IsWithin, IsNumbersOf, AreNumbers};
ghost use Rattle.tree_world.specs.inside.Reads.{links_for};

use crate::end_sets::number_of;
use crate::linking::span_of_run;
use crate::world::TreeWorld;
use febe_data::{Memory, Run, Span, Tumbler};
use poom_compare::{Interval, Placed, joined};
use std::alloc::Global;
use std::collections::BTreeMap;
use world_rules::{End, WorldError};

/// The numbers of the run's bytes, and those that its content has already, from the least to the greatest.
fn extent_with(extents: &BTreeMap<Tumbler, Interval>, run: &Placed) -> Interval
    requires { IsPlaced run.now }
    ensures from { result.from ≤ run.now.first }
    ensures to { run.now.first + run.now.length ≤ result.to }
    ensures wider { (extent : Interval) → get (slice_cmp nat_cmp) extents.now run.now.document ≡ Some extent → (result.from ≤ extent.from) × (extent.to ≤ result.to) }
{
    let end = run.first + run.length;
    match extents.get(&run.document) {
        Some(extent) => Interval {
            from: extent.from.min(run.first),
            to: extent.to.max(end),
        },
        None => Interval {
            from: run.first,
            to: end,
        },
    }
}

/// For each content the numbers from the least to the greatest that runs have of it.
pub(crate) fn extents_of(
    alloc: Global,
    runs: &[Placed],
) -> Result<BTreeMap<Tumbler, Interval>, Memory>
    requires { All IsPlaced runs.now }
    ensures { IfOk result (λ extents. All (IsWithin extents) runs.now) }
{
    let mut extents = BTreeMap::new(alloc);
    for run in runs {
        let extent = extent_with(&extents, run);
        extents.insert(run.document.copy(), extent)?;
    }
    Ok(extents)
}

/// The last place, or 0 where there is none.
fn last_place(tumbler: &Tumbler) -> u32
    ensures { result ≡ number_of tumbler.now }
{
    match tumbler.places().last() {
        Some(place) => *place,
        None => 0,
    }
}

/// The numbers that the span of a run names.
fn numbers_of(span: &Span) -> Result<Interval, WorldError>
    ensures right { IfOk result (IsInterval 4294967295) }
    ensures same { IfOk result (λ numbers. (m : ℕ) → is_in m numbers ≡ names_number span.now m) }
{
    let from = last_place(&span.start);
    let count = last_place(&span.width);
    if from == 0 || count == 0 {
        return Err(WorldError::NoTumbler);
    }
    if count > u32::MAX - from {
        return Err(WorldError::TooGreat);
    }
    Ok(Interval {
        from,
        to: from + count,
    })
}

/// The numbers of content bytes that spans of runs name, one interval for each span and in their order.
fn all_numbers(alloc: Global, spans: &[Span]) -> Result<Vec<Interval>, WorldError>
    ensures each { IfOk result (λ made. All (IsInterval 4294967295) made.items) }
    ensures same { IfOk result (λ made. (m : ℕ) → is_in_some made.items m ≡ list_any (λ span. names_number span m) spans.now) }
{
    let mut made = Vec::new(alloc);
    for span in spans {
        made.push(numbers_of(span)?)?;
    }
    Ok(made)
}

/// The bytes of a content whose numbers these are, as a run that is read through their own document.
fn run_between(document: &Tumbler, extent: Interval) -> Run
    ensures { result ≡ record { origin = document.now; content = document.now; first = extent.from; length = extent.to - extent.from } }
{
    Run {
        origin: document.copy(),
        content: document.copy(),
        first: extent.from,
        length: extent.to.saturating_sub(extent.from),
    }
}

/// How many of the intervals end before a number or at it. They ascend and lie apart.
fn first_behind(numbers: &[Interval], from: u32) -> usize
    requires each { All (IsInterval 4294967295) numbers.now }
    requires apart { AreApart numbers.now }
    ensures within { result ≤ length numbers.now }
    ensures same { (m : ℕ) → from ≤ m → is_in_some (drop result numbers.now) m ≡ is_in_some numbers.now m }
{
    numbers.partition_point(|interval| interval.to <= from)
}

/// How many of the intervals begin before a number.
fn count_before(numbers: &[Interval], to: u32) -> usize
    requires each { All (IsInterval 4294967295) numbers.now }
    requires apart { AreApart numbers.now }
    ensures within { result ≤ length numbers.now }
    ensures same { (m : ℕ) → m < to → is_in_some (take result numbers.now) m ≡ is_in_some numbers.now m }
{
    numbers.partition_point(|interval| interval.from < to)
}

/// The intervals of numbers that can have one from `from` on and before `to`, where the intervals ascend and lie
/// apart.
pub(crate) fn numbers_between(numbers: &[Interval], from: u32, to: u32) -> &[Interval]
    requires each { All (IsInterval 4294967295) numbers.now }
    requires apart { AreApart numbers.now }
    ensures { (m : ℕ) → from ≤ m → m < to → is_in_some result.now m ≡ is_in_some numbers.now m }
{
    let behind = numbers.split_at(first_behind(numbers, from)).1;
    behind.split_at(count_before(behind, to)).0
}

impl TreeWorld {
    /// Which of the content's bytes, of those whose numbers are in the extent, are in that end of some link whose home may
    /// be read for the account.
    fn numbers_in_end(
        &self,
        alloc: Global,
        account: &Option<Tumbler>,
        end: End,
        document: &Tumbler,
        extent: Interval,
    ) -> Result<Vec<Interval>, WorldError>
        ensures { IfOk result (λ made. IsNumbersOf end (links_for self.now account.now) document.now extent made.items) }
    {
        let bytes = span_of_run(&run_between(document, extent))?;
        self.links.in_order();
        let number = number_of(end);
        let spans = self
            .links
            .spans_of_end_for(alloc, number, &bytes, &self.documents, account)?;
        let all = all_numbers(alloc, spans.as_slice())?;
        let made = joined(alloc, all, u32::MAX)?;
        Ok(made)
    }

    /// Sees that the numbers of the content are known, of which the extents are given.
    pub(crate) fn find_numbers(
        &self,
        alloc: Global,
        account: &Option<Tumbler>,
        end: End,
        document: &Tumbler,
        extents: &BTreeMap<Tumbler, Interval>,
        known: &mut BTreeMap<Tumbler, Vec<Interval>>,
    ) -> Result<(), WorldError>
        requires { AreNumbers end (links_for self.now account.now) extents.now known.old }
        ensures { OnOk result (AreNumbers end (links_for self.now account.now) extents.now known.new) }
    {
        if known.contains_key(document) {
            return Ok(());
        }
        let Some(extent) = extents.get(document) else {
            return Err(WorldError::NoTumbler);
        };
        let numbers = self.numbers_in_end(alloc, account, end, document, *extent)?;
        known.insert(document.copy(), numbers)?;
        Ok(())
    }
}
