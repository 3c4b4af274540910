//! Which text is in the ends of links whose homes may be read.
ghost use Rattle.std.specs.Prelude.{◌≡◌, ℕ, ◌<◌, ◌≤◌, ◌||◌, ◌⊎◌, map, All, IfOk, OnOk};
ghost use Rattle.std.specs.List.{list_any};
ghost use Rattle.tumbler.specs.Span.{SpanFits};
ghost use Rattle.febe_data.specs.Plain.{plain_spec};
ghost use Rattle.enfilade_core.specs.Rows.{rows_of};
ghost use Rattle.poom.specs.Laid.{IsRoot, texts};
ghost use Rattle.poom_compare.specs.Shared.{rows_picked};
ghost use Rattle.poom_compare.specs.Placed.{is_in, is_in_some, IsInterval, AreApart, IsPlaced, rows_laid, rows_at};
ghost use Rattle.links.specs.LinkLists.{runs_at};
ghost use Rattle.world_rules.specs.World.{LinkRow as PlainLink, account_of_session};
ghost use Rattle.world_rules.specs.FlatView.{FlatView};
ghost use Rattle.world_rules.specs.Ends.{runs_of_end, end_set_of, end_set, NamesSpans};
ghost use Rattle.tree_world.specs.Standing.{Stands};
ghost use Rattle.tree_world.specs.inside.Reads.{links_for};
ghost use Rattle.tree_world.specs.inside.InEnds.{is_met_at, has_row_in_end, IsWithin, AreNumbers, span_between, spans_in_end};

use crate::ends::spec_of;
use crate::linking::all_fit;
use crate::numbers::{extents_of, numbers_between};
use crate::world::TreeWorld;
use enfilade_core::Node;
use febe_data::{List, Memory, Span, Spec, Tumbler};
use poom_compare::{Interval, Placed, joined, runs_picked};
use std::alloc::Global;
use std::collections::BTreeMap;
use world_rules::{End, LookUp, WorldError, span_from};

/// The most text that a document has.
const MOST_TEXT: u32 = 1_073_741_824;

/// The number of the end, by which its index is asked for.
pub(crate) fn number_of(end: End) -> u32
    ensures one_of { (result ≡ 1) ⊎ (result ≡ 2) ⊎ (result ≡ 3) }
    ensures runs { (link : PlainLink) → runs_at result link ≡ runs_of_end end link }
{
    match end {
        End::From => 1,
        End::To => 2,
        End::Three => 3,
    }
}

/// The positions at which the run shows bytes of these numbers.
fn met_positions(placed: &Placed, numbers: Interval) -> Interval
    requires { IsPlaced placed.now }
    ensures same { (n : ℕ) → is_in n result ≡ is_met_at placed.now numbers n }
    ensures from_one { 1 ≤ result.from }
    ensures to_end { result.to ≤ 1073741825 }
{
    let own_end = placed.first + placed.length;
    let from = numbers.from.max(placed.first).min(own_end);
    let to = numbers.to.min(own_end).max(placed.first);
    Interval {
        from: placed.at + (from - placed.first),
        to: placed.at + (to - placed.first),
    }
}

/// Adds the positions at which the run shows bytes of some of these numbers.
fn push_met(made: &mut Vec<Interval>, placed: &Placed, numbers: &[Interval]) -> Result<(), Memory>
    requires each { All (IsInterval 1073741824) made.old.items }
    requires placed { IsPlaced placed.now }
    ensures each { OnOk result (All (IsInterval 1073741824) made.new.items) }
    ensures same { OnOk result ((n : ℕ) → is_in_some made.new.items n ≡ (is_in_some made.old.items n || list_any (λ interval. is_met_at placed.now interval n) numbers.now)) }
{
    for interval in numbers {
        let met = met_positions(placed, *interval);
        if met.from < met.to {
            made.push(met)?;
        }
    }
    Ok(())
}

/// The intervals as spans of V-addresses.
fn spans_between(alloc: Global, intervals: &[Interval]) -> Result<List<Span>, WorldError>
    requires { All (λ (interval : Interval). interval.from < interval.to) intervals.now }
    ensures { IfOk result (λ made. made.items ≡ map span_between intervals.now) }
{
    let mut made = List::new(alloc);
    for interval in intervals {
        let count = interval.to - interval.from;
        made.push(span_from(alloc, 1, interval.from, count)?)?;
    }
    Ok(made)
}

impl TreeWorld {
    /// Adds the positions at which the run shows bytes of that end of some link whose home may be read for the account.
    /// Where the numbers of the run's content are not known yet, they are found.
    fn push_in_end(
        &self,
        alloc: Global,
        account: &Option<Tumbler>,
        end: End,
        placed: &Placed,
        extents: &BTreeMap<Tumbler, Interval>,
        known: &mut BTreeMap<Tumbler, Vec<Interval>>,
        made: &mut Vec<Interval>,
    ) -> Result<(), WorldError>
        requires each { All (IsInterval 1073741824) made.old.items }
        requires placed { IsPlaced placed.now }
        requires within { IsWithin extents.now placed.now }
        requires known { AreNumbers end (links_for self.now account.now) extents.now known.old }
        ensures known { OnOk result (AreNumbers end (links_for self.now account.now) extents.now known.new) }
        ensures each { OnOk result (All (IsInterval 1073741824) made.new.items) }
        ensures same { OnOk result ((n : ℕ) → is_in_some made.new.items n ≡ (is_in_some made.old.items n || has_row_in_end end (links_for self.now account.now) (rows_at placed.now) n)) }
    {
        self.find_numbers(alloc, account, end, &placed.document, extents, known)?;
        let Some(numbers) = known.get(&placed.document) else {
            return Err(WorldError::NoTumbler);
        };
        let own_end = placed.first + placed.length;
        let own = numbers_between(numbers.as_slice(), placed.first, own_end);
        push_met(made, placed, own)?;
        Ok(())
    }

    /// The positions at which some of the runs show bytes of that end of some link whose home may be read for the account.
    ///
    /// The index is asked once for each content, so that it does not matter how often runs and links have the same bytes.
    fn all_in_end(
        &self,
        alloc: Global,
        account: &Option<Tumbler>,
        end: End,
        placed: &[Placed],
    ) -> Result<Vec<Interval>, WorldError>
        requires { All IsPlaced placed.now }
        ensures each { IfOk result (λ made. All (IsInterval 1073741824) made.items) }
        ensures same { IfOk result (λ made. (n : ℕ) → is_in_some made.items n ≡ has_row_in_end end (links_for self.now account.now) (rows_laid placed.now) n) }
    {
        let extents = extents_of(alloc, placed)?;
        let mut known = BTreeMap::new(alloc);
        let mut made = Vec::new(alloc);
        for run in placed {
            self.push_in_end(alloc, account, end, run, &extents, &mut known, &mut made)?;
        }
        Ok(made)
    }

    /// What of the picked text of a tree is in that end of some link whose home may be read for the account, as the fewest
    /// intervals.
    fn spans_in_end(
        &self,
        alloc: Global,
        account: &Option<Tumbler>,
        root: Node,
        end: End,
        spans: &[Span],
    ) -> Result<List<Span>, WorldError>
        requires root { IsRoot self.now.nodes root.0 }
        requires fits { All SpanFits spans.now }
        ensures { IfOk result (λ made. made.items ≡ spans_in_end end (links_for self.now account.now) spans.now (texts (rows_of self.now.nodes root.0))) }
    {
        let placed = runs_picked(&self.pooms, root, spans)?;
        let all = self.all_in_end(alloc, account, end, placed.as_slice())?;
        let fewest = joined(alloc, all, MOST_TEXT)?;
        let made = spans_between(alloc, fewest.as_slice())?;
        Ok(made)
    }

    /// Which of the text that the spec picks is in that end of some link whose home the session may read: the account is
    /// the session's.
    fn end_set_of(
        &self,
        alloc: Global,
        account: &Option<Tumbler>,
        end: End,
        spec: &Spec,
    ) -> Result<Spec, WorldError>
        ensures value { (view : FlatView) (session : ℕ) → Stands self.now view → account.now ≡ account_of_session view.world session → IfOk result (λ made. plain_spec made ≡ end_set_of view.world session end (plain_spec spec.now)) }
        ensures valid { IfOk result (λ made. NamesSpans (plain_spec made)) }
    {
        let spans = spec.spans.as_slice();
        if !all_fit(spans) {
            return Err(WorldError::NoTumbler);
        }
        let Some(root) = self.documents.root(&spec.document) else {
            return Ok(spec_of(&spec.document, List::new(alloc)));
        };
        let found = self.spans_in_end(alloc, account, root, end, spans)?;
        Ok(spec_of(&spec.document, found))
    }

    /// One spec for each spec: which of the text that it picks is in that end of some link whose home the session may read.
    pub(crate) fn specs_in_end(
        &self,
        alloc: Global,
        session: u64,
        end: End,
        specs: &[Spec],
    ) -> Result<List<Spec>, WorldError>
        ensures value { (view : FlatView) → Stands self.now view → IfOk result (λ made. map plain_spec made.items ≡ end_set view.world session end (map plain_spec specs.now)) }
        ensures valid { IfOk result (λ made. All NamesSpans (map plain_spec made.items)) }
    {
        let account = self.account_of_session(session);
        let mut made = List::new(alloc);
        for spec in specs {
            made.push(self.end_set_of(alloc, &account, end, spec)?)?;
        }
        Ok(made)
    }
}
