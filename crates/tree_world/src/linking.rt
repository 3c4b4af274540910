//! Which links are wanted, found in the table of links. Of those that are found the ones whose home may not be read go.
ghost use Rattle.std.specs.Prelude.{◌≡◌, length, map, not, is_none, All, IfOk, IsTrue};
ghost use Rattle.tumbler.specs.Places.{IsTumbler};
ghost use Rattle.tumbler.specs.Span.{SpanFits};
ghost use Rattle.febe_data.specs.Plain.{plain_spec, plain_want};
ghost use Rattle.links.specs.LinkLists.{IsRun, run_span, has_in};
ghost use Rattle.world_rules.specs.FlatView.{FlatView};
ghost use Rattle.world_rules.specs.Finding.{links_found, ids_found, ids_after, link_at};
ghost use Rattle.world_rules.specs.Wanted.{AreWantedRuns};
ghost use Rattle.tree_world.specs.Standing.{Stands};
ghost use Rattle.tree_world.specs.inside.Met.{IsWantedEnd, AreWantedEnds};
ghost use Rattle.tree_world.specs.inside.Reads.{ids_above};

use crate::world::TreeWorld;
use febe_data::{List, Run, Span, Spec, Tumbler, Want};
use links::{WantedEnds, run_span};
use std::alloc::Global;
use world_rules::{LookUp, WantedRuns, WorldError};

/// The addresses of the run's bytes. What is no run of a document's content has none.
pub(crate) fn span_of_run(run: &Run) -> Result<Span, WorldError>
    ensures right { IfOk result (λ span. IsRun run.now) }
    ensures value { IfOk result (λ span. span ≡ run_span run.now) }
    ensures fits { IfOk result SpanFits }
{
    if !run.content.is_document() {
        return Err(WorldError::NoTumbler);
    }
    if run.first == 0 || run.length == 0 {
        return Err(WorldError::NoTumbler);
    }
    if run.length > u32::MAX - run.first {
        return Err(WorldError::NoTumbler);
    }
    Ok(run_span(run))
}

/// The spans of I-addresses of runs, one for each run and in their order. There are none unless each is a run of a
/// document's content.
fn spans_of_runs(alloc: Global, runs: &[Run]) -> Result<List<Span>, WorldError>
    ensures right { IfOk result (λ made. All IsRun runs.now) }
    ensures value { IfOk result (λ made. made.items ≡ map run_span runs.now) }
    ensures fits { IfOk result (λ made. All SpanFits made.items) }
{
    let mut made = List::new(alloc);
    for run in runs {
        made.push(span_of_run(run)?)?;
    }
    Ok(made)
}

/// What an end has to meet: the runs that its specs pick, or anything where there is no spec.
fn wanted_end(alloc: Global, specs: &[Spec], runs: &[Run]) -> Result<Option<List<Span>>, WorldError>
    ensures { IfOk result (IsWantedEnd (map plain_spec specs.now) runs.now) }
{
    if specs.is_empty() {
        return Ok(None);
    }
    let spans = spans_of_runs(alloc, runs)?;
    Ok(Some(spans))
}

/// What each end has to meet.
fn wanted_ends(alloc: Global, want: &Want, runs: &WantedRuns) -> Result<WantedEnds, WorldError>
    ensures { IfOk result (AreWantedEnds (plain_want want.now) runs.now) }
{
    let from = wanted_end(alloc, want.from.as_slice(), runs.from.as_slice())?;
    let to = wanted_end(alloc, want.to.as_slice(), runs.to.as_slice())?;
    let three = wanted_end(alloc, want.three.as_slice(), runs.three.as_slice())?;
    Ok(WantedEnds { from, to, three })
}

/// Whether the end of each span is a tumbler.
pub(crate) fn all_fit(spans: &[Span]) -> bool
    ensures { IsTrue result → All SpanFits spans.now }
{
    for span in spans {
        if !span.fits() {
            return false;
        }
    }
    true
}

/// Lets callers know that each is a tumbler. It changes nothing.
fn are_tumblers(tumblers: &[Tumbler])
    ensures { All IsTumbler tumblers.now }
{
    for tumbler in tumblers {
        let _ = tumbler.places();
    }
}

impl TreeWorld {
    /// Whether there is a link of that id whose home the session may read.
    pub(crate) fn is_link(&self, session: u64, id: &Tumbler) -> bool
        ensures { (view : FlatView) → Stands self.now view → result ≡ not (is_none (link_at view.world session id.now)) }
    {
        let account = self.account_of_session(session);
        self.link_for(&account, id).is_some()
    }

    /// Whether there is a link of that id, whoever may read its home.
    fn has_id(&self, id: &Tumbler) -> bool
        ensures { result ≡ has_in self.now.links.links id.now }
    {
        self.links.get(id).is_some()
    }

    /// The ids above the tumbler of all links that are wanted, whoever may read their homes.
    fn ids_above(
        &self,
        alloc: Global,
        want: &Want,
        runs: &WantedRuns,
        after: &Tumbler,
    ) -> Result<List<Tumbler>, WorldError>
        requires { (view : FlatView) → Stands self.now view → AreWantedRuns view.world (plain_want want.now) runs.now }
        ensures { (view : FlatView) → Stands self.now view → IfOk result (λ found. found.items ≡ ids_above view.world (plain_want want.now) self.now.links.links after.now) }
    {
        if !all_fit(want.homes.as_slice()) {
            return Err(WorldError::NoTumbler);
        }
        let ends = wanted_ends(alloc, want, runs)?;
        self.links.in_order();
        let found = self.links.find(alloc, &want.homes, &ends, after, u32::MAX)?;
        if found.len() >= u32::MAX as usize {
            return Err(WorldError::TooGreat);
        }
        Ok(found)
    }

    /// The first so many ids above the tumbler, of the links that are wanted and whose home the session may read.
    pub(crate) fn link_ids_after(
        &self,
        alloc: Global,
        session: u64,
        want: &Want,
        runs: &WantedRuns,
        after: &Tumbler,
        limit: u32,
    ) -> Result<List<Tumbler>, WorldError>
        requires { (view : FlatView) → Stands self.now view → AreWantedRuns view.world (plain_want want.now) runs.now }
        ensures items { (view : FlatView) → Stands self.now view → IfOk result (λ made. made.items ≡ ids_after view.world session (plain_want want.now) after.now limit) }
        ensures valid { IfOk result (λ made. All IsTumbler made.items) }
    {
        let met = self.ids_above(alloc, want, runs, after)?;
        let account = self.account_of_session(session);
        self.links.in_order();
        let ids = met.as_slice();
        let found = self
            .links
            .ids_read_for(alloc, ids, &self.documents, &account, limit)?;
        are_tumblers(found.as_slice());
        Ok(found)
    }

    /// The ids of the links that are wanted and whose home the session may read, ascending. No link has the tumbler of no
    /// places as its id.
    pub(crate) fn link_ids(
        &self,
        alloc: Global,
        session: u64,
        want: &Want,
        runs: &WantedRuns,
    ) -> Result<List<Tumbler>, WorldError>
        requires { (view : FlatView) → Stands self.now view → AreWantedRuns view.world (plain_want want.now) runs.now }
        ensures items { (view : FlatView) → Stands self.now view → IfOk result (λ made. made.items ≡ ids_found view.world session (plain_want want.now)) }
        ensures valid { IfOk result (λ made. All IsTumbler made.items) }
    {
        let least = Tumbler::zero(alloc);
        if self.has_id(&least) {
            return Err(WorldError::NoTumbler);
        }
        let found = self.link_ids_after(alloc, session, want, runs, &least, u32::MAX)?;
        if found.len() >= u32::MAX as usize {
            return Err(WorldError::TooGreat);
        }
        Ok(found)
    }

    /// How many links are wanted, of those whose home the session may read. Their ids are looked through where they are, and
    /// not listed once more.
    pub(crate) fn count_links(
        &self,
        session: u64,
        want: &Want,
        runs: &WantedRuns,
    ) -> Result<u32, WorldError>
        requires { (view : FlatView) → Stands self.now view → AreWantedRuns view.world (plain_want want.now) runs.now }
        ensures { (view : FlatView) → Stands self.now view → IfOk result (λ count. count ≡ length (links_found view.world session (plain_want want.now))) }
    {
        let least = Tumbler::zero(self.alloc);
        if self.has_id(&least) {
            return Err(WorldError::NoTumbler);
        }
        let met = self.ids_above(self.alloc, want, runs, &least)?;
        let account = self.account_of_session(session);
        self.links.in_order();
        let count = self
            .links
            .count_read_for(met.as_slice(), &self.documents, &account);
        if count > u32::MAX as usize {
            return Err(WorldError::TooGreat);
        }
        Ok(count as u32)
    }
}
