//! Runs of content where they stand in a text.
ghost use Rattle.std.specs.Prelude.{◌≡◌, ◌+◌, ◌-◌, ◌<◌, ◌≤◌, ◌++◌, ◌∷◌, [], length, filter, All, IfOk, OnOk};
ghost use Rattle.tumbler.specs.Span.{SpanFits};
ghost use Rattle.enfilade_core.specs.Rows.{rows_of};
ghost use Rattle.poom.specs.Laid.{IsRoot, texts};
ghost use Rattle.poom.specs.Edited.{IsContentRun, run_addresses};
ghost use Rattle.world_rules.specs.declared.rows.Row.{Row};
ghost use Rattle.world_rules.specs.Edits.{new_rows};
ghost use Rattle.poom_compare.specs.Shared.{rows_of_text, rows_picked};
ghost use Rattle.poom_compare.specs.Placed.{is_in, IsInterval, IsPlaced, rows_laid};

use crate::positions::{Interval, picked};
use enfilade_core::Node;
use febe_data::Run;
use poom::Poom;
use std::alloc::Global;
use tumbler::{Memory, Span, Tumbler};

/// Bytes of content that follow each other, and where the first of them stands in a text.
#[derive(Debug, Drop)]
pub struct Placed {
    /// The first position.
    pub at: u32,
    /// The document into which the bytes were first put.
    pub document: Tumbler,
    /// Which of that document's bytes comes first. They are counted from 1.
    pub first: u32,
    /// How many there are, and never none.
    pub length: u32,
}

/// Adds runs one behind the other, the first one at a position.
fn push_runs(placed: &mut Vec<Placed>, at: u32, runs: &[Run]) -> Result<(), Memory>
    requires each { All IsPlaced placed.old.items }
    requires contents { All IsContentRun runs.now }
    requires from_one { 1 ≤ at }
    requires fits { at + length (run_addresses runs.now) ≤ 1073741825 }
    ensures each { OnOk result (All IsPlaced placed.new.items) }
    ensures rows { OnOk result (rows_laid placed.new.items ≡ rows_laid placed.old.items ++ new_rows [] at (run_addresses runs.now)) }
{
    let mut position = at;
    for run in runs {
        placed.push(Placed {
            at: position,
            document: run.content.copy(),
            first: run.first,
            length: run.length,
        })?;
        position += run.length;
    }
    Ok(())
}

/// An interval as a span of V-addresses.
fn span_of(alloc: Global, interval: Interval) -> Span
    requires from_one { 1 ≤ interval.from }
    requires some { interval.from < interval.to }
    ensures value { result ≡ record { start = 1 ∷ interval.from ∷ []; width = 0 ∷ (interval.to - interval.from) ∷ [] } }
    ensures fits { SpanFits result }
{
    let Ok(start) = Tumbler::from_places(alloc, &[1, interval.from]) else {
        unreachable!();
    };
    let Ok(width) = Tumbler::from_places(alloc, &[0, interval.to - interval.from]) else {
        unreachable!();
    };
    Span { start, width }
}

/// Adds the runs of a document's text in an interval.
fn place(
    poom: &Poom,
    root: Node,
    placed: &mut Vec<Placed>,
    interval: Interval,
) -> Result<(), Memory>
    requires root { IsRoot poom.now root.0 }
    requires each { All IsPlaced placed.old.items }
    requires interval { IsInterval (length (texts (rows_of poom.now root.0))) interval }
    ensures each { OnOk result (All IsPlaced placed.new.items) }
    ensures rows { OnOk result (rows_laid placed.new.items ≡ rows_laid placed.old.items ++ filter (λ (row : Row). is_in row.n interval) (rows_of_text (texts (rows_of poom.now root.0)))) }
{
    let alloc = poom.allocator();
    let span = span_of(alloc, interval);
    let runs = poom.picked(root, &Tumbler::zero(alloc), &span)?;
    push_runs(placed, interval.from, runs.as_slice())?;
    Ok(())
}

/// The runs of what some spans pick from a document's text, in V order.
pub fn runs_picked(poom: &Poom, root: Node, spans: &[Span]) -> Result<Vec<Placed>, Memory>
    requires root { IsRoot poom.now root.0 }
    requires fits { All SpanFits spans.now }
    ensures each { IfOk result (λ made. All IsPlaced made.items) }
    ensures rows { IfOk result (λ made. rows_laid made.items ≡ rows_picked spans.now (texts (rows_of poom.now root.0))) }
{
    let alloc = poom.allocator();
    let intervals = picked(alloc, spans, poom.length(root))?;
    let mut placed = Vec::new(alloc);
    for interval in intervals.as_slice() {
        place(poom, root, &mut placed, *interval)?;
    }
    Ok(placed)
}
