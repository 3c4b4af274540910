//! The documents that show what specs pick, of those that a session may read.
ghost use Rattle.std.specs.Prelude.{◌≡◌, ◌++◌, ◌∷◌, [], map, filter, All, IfOk, OnOk, if◌then◌else◌};
ghost use Rattle.tumbler.specs.Places.{IsTumbler};
ghost use Rattle.tumbler.specs.Span.{SpanFits};
ghost use Rattle.febe_data.specs.Plain.{plain_spec};
ghost use Rattle.enfilade_core.specs.Rows.{rows_of};
ghost use Rattle.spanfilade.specs.Index.{rows_in_index};
ghost use Rattle.spanfilade.specs.Keys.{keys_met};
ghost use Rattle.poom.specs.Laid.{IsRoot};
ghost use Rattle.world_rules.specs.FlatView.{FlatView};
ghost use Rattle.world_rules.specs.Finding.{documents_found};
ghost use Rattle.tree_world.specs.Standing.{Stands};
ghost use Rattle.tree_world.specs.inside.Asked.{IsAsked, is_shown};
ghost use Rattle.tree_world.specs.inside.Reads.{shows_for};
ghost use Rattle.tree_world.specs.inside.Seen.{rows_show, shows};

use crate::run_spans::run_spans;
use crate::world::TreeWorld;
use enfilade_core::Node;
use febe_data::{List, Memory, Span, Spec, Tumbler};
use poom::Poom;
use std::alloc::Global;
use world_rules::{LookUp, WorldError};

/// Whether a tree has content, or links, in the span.
fn shows_span(poom: &Poom, root: Node, span: &Span) -> Result<bool, Memory>
    requires root { IsRoot poom.now root.0 }
    requires fits { SpanFits span.now }
    ensures { IfOk result (λ found. found ≡ rows_show (span.now ∷ []) (rows_of poom.now root.0)) }
{
    let found = poom.v_of(root, span)?;
    Ok(!found.is_empty())
}

/// Whether a document's tree shows content or links at addresses of one of the spans.
fn shows_any(poom: &Poom, root: Node, spans: &[Span]) -> Result<bool, Memory>
    requires root { IsRoot poom.now root.0 }
    requires fits { All SpanFits spans.now }
    ensures { IfOk result (λ found. found ≡ rows_show spans.now (rows_of poom.now root.0)) }
{
    for span in spans {
        if shows_span(poom, root, span)? {
            return Ok(true);
        }
    }
    Ok(false)
}

/// A tree that was asked, and whether it shows content of the spans.
#[derive(Clone, Copy, Debug)]
struct Asked {
    root: Node,
    shows: bool,
}

/// What a tree answered. Where there is none, nothing is shown.
fn is_shown(asked: Option<Asked>) -> bool
    ensures { result ≡ is_shown asked }
{
    match asked {
        Some(asked) => asked.shows,
        None => false,
    }
}

impl TreeWorld {
    /// Asks a document's tree, unless it is the one that was asked last: versions may share one.
    fn asked(
        &self,
        last: Option<Asked>,
        document: &Tumbler,
        spans: &[Span],
    ) -> Result<Option<Asked>, Memory>
        requires fits { All SpanFits spans.now }
        requires last { IsAsked self.now spans.now last }
        ensures asked { IfOk result (IsAsked self.now spans.now) }
        ensures shows { IfOk result (λ asked. is_shown asked ≡ shows self.now spans.now document.now) }
    {
        let Some(root) = self.documents.root(document) else {
            return Ok(None);
        };
        if let Some(asked) = last {
            if asked.root == root {
                return Ok(last);
            }
        }
        let shows = shows_any(&self.pooms, root, spans)?;
        Ok(Some(Asked { root, shows }))
    }

    /// Adds the document if it may be read for the account and shows content of one of the spans. It gives what was asked
    /// last: of a document that may not be read no tree is asked.
    fn push_showing(
        &self,
        account: &Option<Tumbler>,
        made: &mut List<Tumbler>,
        last: Option<Asked>,
        document: &Tumbler,
        spans: &[Span],
    ) -> Result<Option<Asked>, Memory>
        requires fits { All SpanFits spans.now }
        requires last { IsAsked self.now spans.now last }
        ensures items { OnOk result (made.new.items ≡ made.old.items ++ (if shows_for self.now account.now spans.now document.now then document.now ∷ [] else [])) }
        ensures valid { OnOk result (All IsTumbler made.old.items → All IsTumbler made.new.items) }
        ensures asked { IfOk result (IsAsked self.now spans.now) }
    {
        if !self.may_read(account, document) {
            return Ok(last);
        }
        let asked = self.asked(last, document, spans)?;
        if !is_shown(asked) {
            return Ok(asked);
        }
        let _ = document.places();
        made.push(document.copy())?;
        Ok(asked)
    }

    /// Those of the documents that may be read for the account and show content of one of the spans, in the order in which
    /// they are given.
    fn showing(
        &self,
        alloc: Global,
        account: &Option<Tumbler>,
        documents: &[Tumbler],
        spans: &[Span],
    ) -> Result<List<Tumbler>, Memory>
        requires { All SpanFits spans.now }
        ensures items { IfOk result (λ made. made.items ≡ filter (shows_for self.now account.now spans.now) documents.now) }
        ensures valid { IfOk result (λ made. All IsTumbler made.items) }
    {
        let mut made = List::new(alloc);
        let mut last = None;
        for document in documents {
            last = self.push_showing(account, &mut made, last, document, spans)?;
        }
        Ok(made)
    }

    /// The documents to which content of the spans came: those that show it, and those that showed it once.
    fn documents_met(&self, spans: &List<Span>) -> Result<List<Tumbler>, Memory>
        requires { All SpanFits spans.now.items }
        ensures { IfOk result (λ found. found.items ≡ keys_met spans.now.items (rows_in_index self.now.index)) }
    {
        let found = self.index.keys_meeting(spans)?;
        Ok(found)
    }

    /// The documents that the session may read and that have content which the specs pick, ascending.
    pub(crate) fn documents_with(
        &self,
        alloc: Global,
        session: u64,
        specs: &[Spec],
    ) -> Result<List<Tumbler>, WorldError>
        ensures items { (view : FlatView) → Stands self.now view → IfOk result (λ made. made.items ≡ documents_found view.world session (map plain_spec specs.now)) }
        ensures valid { IfOk result (λ made. All IsTumbler made.items) }
    {
        let _ = &self.pooms;
        let runs = self.runs_by_specs(alloc, specs)?;
        let spans = run_spans(alloc, runs.as_slice())?;
        let met = self.documents_met(&spans)?;
        let account = self.account_of_session(session);
        let made = self.showing(alloc, &account, met.as_slice(), spans.as_slice())?;
        Ok(made)
    }
}
