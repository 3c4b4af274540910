//! What spans pick from documents.
ghost use Rattle.std.specs.Prelude.{◌≡◌, ℕ, ◌+◌, ◌<◌, ◌≤◌, ◌++◌, length, map, All, IfOk, OnOk};
ghost use Rattle.tumbler.specs.Span.{SpanFits};
ghost use Rattle.enfilade_core.specs.Rows.{rows_of};
ghost use Rattle.poom.specs.Pieces.{IsPiece, address_in, piece_addresses, laid};
ghost use Rattle.poom.specs.Laid.{IsRoot, part_number, standing_in, texts, links};
ghost use Rattle.poom.specs.Picked.{picked_from};
ghost use Rattle.poom.specs.Cuts.{AreApart};
ghost use Rattle.poom.specs.Edited.{IsContentRun, piece_run, run_addresses};
ghost use Rattle.poom.specs.Runs.{as_runs};

use crate::delete::bound;
use crate::part::Part;
use crate::piece::Piece;
use crate::poom::Poom;
use enfilade_core::Node;
use febe_data::Run;
use std::alloc::Global;
use tumbler::{List, Memory, Span, Tumbler};

/// Pieces of a text as runs that are read through a document.
fn runs_of(alloc: Global, document: &Tumbler, pieces: &[Piece]) -> Result<List<Run>, Memory>
    ensures { IfOk result (λ runs. runs.items ≡ map (piece_run document.now) pieces.now) }
{
    let mut runs = List::new(alloc);
    runs.reserve(pieces.len())?;
    for piece in pieces {
        runs.push_reserved(Run {
            origin: document.copy(),
            content: piece.document.copy(),
            first: piece.first,
            length: piece.count,
        });
    }
    Ok(runs)
}

/// The address of byte or link n of a document.
#[tactic(auto, using(crate::proofs::Picks::picks))]
fn address(part: Part, piece: &Piece, k: u32) -> Tumbler
    requires piece { IsPiece piece.now }
    requires inside { k < piece.now.count }
    ensures { result ≡ address_in (part_number part) piece.now.document (piece.now.first + k) }
{
    let Ok(address) = piece
        .document
        .extended(&[0, part.number(), piece.first + k])
    else {
        unreachable!();
    };
    address
}

/// Adds the addresses of a piece, one by one.
#[tactic(auto, using(crate::proofs::Picks::picks))]
fn push_addresses(ids: &mut List<Tumbler>, part: Part, piece: &Piece) -> Result<(), Memory>
    requires { IsPiece piece.now }
    ensures { OnOk result (ids.new.items ≡ ids.old.items ++ piece_addresses (part_number part) piece.now) }
{
    for k in 0..piece.count {
        ids.push(address(part, piece, k))?;
    }
    Ok(())
}

/// The addresses of pieces, one by one.
#[tactic(auto, using(crate::proofs::Picks::picks))]
fn addresses_of(alloc: Global, part: Part, pieces: &[Piece]) -> Result<List<Tumbler>, Memory>
    requires { All IsPiece pieces.now }
    ensures { IfOk result (λ ids. ids.items ≡ laid (part_number part) pieces.now) }
{
    let mut ids = List::new(alloc);
    for piece in pieces {
        push_addresses(&mut ids, part, piece)?;
    }
    Ok(ids)
}

impl Poom {
    /// Pieces of what a span of V-addresses picks from a part.
    #[tactic(auto, using(crate::proofs::Picks::spans))]
    pub(crate) fn pieces_of_span(
        &self,
        root: Node,
        part: Part,
        span: &Span,
    ) -> Result<List<Piece>, Memory>
        requires root { IsRoot self.now root.0 }
        requires fits { SpanFits span.now }
        ensures laid { IfOk result (λ made. laid (part_number part) made.items ≡ picked_from (part_number part) span.now 1 (standing_in part (rows_of self.now root.0))) }
        ensures each { IfOk result (λ made. All IsPiece made.items) }
        ensures apart { IfOk result (λ made. AreApart made.items) }
    {
        let length = self.length_of(root, part);
        let from = bound(part, &span.start, length);
        let to = bound(part, &span.start.add(&span.width), length);
        if to <= from {
            return Ok(List::new(self.alloc));
        }
        let pieces = self.pieces_between(root, part, from, to)?;
        Ok(pieces)
    }

    /// The runs of what a span picks from the text, read through this document: as few as can be, in V order.
    #[tactic(auto, using(crate::proofs::Picks::runs))]
    pub fn picked(&self, root: Node, document: &Tumbler, span: &Span) -> Result<List<Run>, Memory>
        requires root { IsRoot self.now root.0 }
        requires fits { SpanFits span.now }
        ensures runs { IfOk result (λ runs. runs.items ≡ as_runs document.now (picked_from 1 span.now 1 (texts (rows_of self.now root.0)))) }
        ensures bytes { IfOk result (λ runs. run_addresses runs.items ≡ picked_from 1 span.now 1 (texts (rows_of self.now root.0))) }
        ensures origin { IfOk result (λ runs. All (λ run. run.origin ≡ document.now) runs.items) }
        ensures content { IfOk result (λ runs. All IsContentRun runs.items) }
    {
        let pieces = self.pieces_of_span(root, Part::Text, span)?;
        let runs = runs_of(self.alloc, document, pieces.as_slice())?;
        Ok(runs)
    }

    /// The ids of the links that a span picks, in V order.
    #[tactic(auto, using(crate::proofs::Picks::runs))]
    pub fn picked_links(&self, root: Node, span: &Span) -> Result<List<Tumbler>, Memory>
        requires root { IsRoot self.now root.0 }
        requires fits { SpanFits span.now }
        ensures { IfOk result (λ ids. ids.items ≡ picked_from 2 span.now 1 (links (rows_of self.now root.0))) }
    {
        let pieces = self.pieces_of_span(root, Part::Links, span)?;
        let ids = addresses_of(self.alloc, Part::Links, pieces.as_slice())?;
        Ok(ids)
    }
}
