//! Where the ends of links are now, as far as a session may read.
ghost use Rattle.std.specs.Prelude.{◌≡◌, ◌++◌, ◌∷◌, [], map, All, IfOk, OnOk, Some, if◌then◌else◌};
ghost use Rattle.tumbler.specs.Places.{IsTumbler};
ghost use Rattle.tumbler.specs.Span.{SpanFits};
ghost use Rattle.febe_data.specs.Plain.{plain_spec};
ghost use Rattle.febe_data.specs.Validity.{IsSpan};
ghost use Rattle.links.specs.LinkLists.{IsRun, plain_link, run_span};
ghost use Rattle.world_rules.specs.FlatView.{FlatView};
ghost use Rattle.world_rules.specs.Finding.{link_at};
ghost use Rattle.world_rules.specs.Ends.{runs_of_end, run_now, NamesSpans};
ghost use Rattle.world_rules.specs.Answers.{follow_of};
ghost use Rattle.tree_world.specs.Standing.{Stands};
ghost use Rattle.tree_world.specs.inside.Reads.{reads_in, now_for};

use crate::linking::span_of_run;
use crate::world::TreeWorld;
use febe_data::{List, Run, Span, Spec, Tumbler};
use links::LinkRow;
use std::alloc::Global;
use world_rules::{End, LookUp, WorldError};

/// The runs of that end.
fn runs_of_end(link: &LinkRow, end: End) -> &[Run]
    ensures { result.now ≡ runs_of_end end (plain_link link.now) }
{
    match end {
        End::From => link.from.as_slice(),
        End::To => link.to.as_slice(),
        End::Three => link.three.as_slice(),
    }
}

/// The document's spans as a spec.
pub(crate) fn spec_of(document: &Tumbler, spans: List<Span>) -> Spec
    ensures value { plain_spec result ≡ record { document = document.now; spans = spans.items } }
    ensures valid { NamesSpans (plain_spec result) }
{
    let _ = document.places();
    are_spans(spans.as_slice());
    Spec {
        document: document.copy(),
        spans,
    }
}

/// Lets callers know that the start and the width of each span are tumblers. It changes nothing.
fn are_spans(spans: &[Span])
    ensures { All IsSpan spans.now }
{
    for span in spans {
        let _ = span.start.places();
        let _ = span.width.places();
    }
}

impl TreeWorld {
    /// Where the run's origin shows its bytes now: these are the bytes' addresses.
    fn spans_now(&self, alloc: Global, run: &Run, bytes: &Span) -> Result<List<Span>, WorldError>
        requires right { IsRun run.now }
        requires bytes { bytes.now ≡ run_span run.now }
        requires fits { SpanFits bytes.now }
        ensures { (view : FlatView) → Stands self.now view → IfOk result (λ spans. spans.items ≡ (run_now view.world run.now).spans) }
    {
        let Some(root) = self.documents.root(&run.origin) else {
            return Ok(List::new(alloc));
        };
        let spans = self.pooms.v_of(root, bytes)?;
        Ok(spans)
    }

    /// Where a run's bytes are now, as a spec: the V-spans at which the run's origin shows them, and no span where it
    /// shows none.
    fn run_now(&self, alloc: Global, run: &Run) -> Result<Spec, WorldError>
        ensures value { (view : FlatView) → Stands self.now view → IfOk result (λ spec. plain_spec spec ≡ run_now view.world run.now) }
        ensures valid { IfOk result (λ spec. NamesSpans (plain_spec spec)) }
    {
        let bytes = span_of_run(run)?;
        let spans = self.spans_now(alloc, run, &bytes)?;
        Ok(spec_of(&run.origin, spans))
    }

    /// Adds where the run's bytes are now, if its origin may be read for the account.
    fn push_now(
        &self,
        alloc: Global,
        account: &Option<Tumbler>,
        run: &Run,
        made: &mut List<Spec>,
    ) -> Result<(), WorldError>
        ensures value { (view : FlatView) → Stands self.now view → OnOk result (map plain_spec made.new.items ≡ map plain_spec made.old.items ++ (if reads_in self.now account.now run.now.origin then run_now view.world run.now ∷ [] else [])) }
        ensures valid { OnOk result (All NamesSpans (map plain_spec made.old.items) → All NamesSpans (map plain_spec made.new.items)) }
    {
        if !self.may_read(account, &run.origin) {
            return Ok(());
        }
        made.push(self.run_now(alloc, run)?)?;
        Ok(())
    }

    /// One spec for each run whose origin may be read for the account.
    fn runs_now(
        &self,
        alloc: Global,
        account: &Option<Tumbler>,
        runs: &[Run],
    ) -> Result<List<Spec>, WorldError>
        ensures value { (view : FlatView) → Stands self.now view → IfOk result (λ made. map plain_spec made.items ≡ now_for view.world self.now account.now runs.now) }
        ensures valid { IfOk result (λ made. All NamesSpans (map plain_spec made.items)) }
    {
        let mut made = List::new(alloc);
        for run in runs {
            self.push_now(alloc, account, run, &mut made)?;
        }
        Ok(made)
    }

    /// Where that end of the link is now: one spec for each of its runs whose origin the session may read. Nothing where
    /// there is no such link, or its home may not be read.
    pub(crate) fn end_specs(
        &self,
        alloc: Global,
        session: u64,
        id: &Tumbler,
        end: End,
    ) -> Result<List<Spec>, WorldError>
        ensures value { (view : FlatView) → Stands self.now view → IfOk result (λ made. map plain_spec made.items ≡ follow_of view.world session (link_at view.world session id.now) (Some end)) }
        ensures valid { IfOk result (λ made. All NamesSpans (map plain_spec made.items)) }
    {
        let account = self.account_of_session(session);
        let Some(link) = self.link_for(&account, id) else {
            return Ok(List::new(alloc));
        };
        let made = self.runs_now(alloc, &account, runs_of_end(link, end))?;
        Ok(made)
    }
}
