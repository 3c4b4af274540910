//! What comes into the index of documents by their content.
ghost use Rattle.std.specs.Prelude.{◌≡◌, List as ListOf, ℕ, All, IfOk, IfSome, OnOk, OnErr};
ghost use Rattle.enfilade_core.specs.Rows.{rows_of};
ghost use Rattle.enfilade_core.specs.Exchange.{Grows};
ghost use Rattle.poom.specs.Laid.{IsRoot, texts};
ghost use Rattle.poom.specs.Edited.{IsContentRun, run_addresses};
ghost use Rattle.tree_world.specs.Standing.{IsCovered};
ghost use Rattle.tree_world.specs.Changed.{whole_text, total_bytes};

use crate::run_spans::run_spans;
use enfilade_core::Node;
use febe_data::{List, Memory, Run, Span, Tumbler};
use poom::Poom;
use spanfilade::{Spanfilade, joined};
use std::alloc::Global;

/// The V-addresses of all text.
fn whole_text(alloc: Global) -> Span
    ensures { result ≡ whole_text }
{
    Span {
        start: Tumbler::width(alloc, 1, 1),
        width: Tumbler::width(alloc, 1, 1),
    }
}

/// The runs of all of a document's text.
pub(crate) fn text_runs(
    alloc: Global,
    pooms: &Poom,
    root: Node,
    document: &Tumbler,
) -> Result<List<Run>, Memory>
    requires { IsRoot pooms.now root.0 }
    ensures bytes { IfOk result (λ runs. run_addresses runs.items ≡ texts (rows_of pooms.now root.0)) }
    ensures content { IfOk result (λ runs. All IsContentRun runs.items) }
{
    let span = whole_text(alloc);
    let runs = pooms.picked(root, document, &span)?;
    Ok(runs)
}

/// The spans of runs come in for a document, joined where they touch, so that many runs that make one cost as one. Where it
/// is refused the index is as before.
pub(crate) fn index_runs(
    alloc: Global,
    index: &mut Spanfilade,
    runs: &[Run],
    document: &Tumbler,
) -> Result<(), Memory>
    requires { All IsContentRun runs.now }
    ensures keeps { OnOk result ((d a : ListOf ℕ) → IsCovered index.old d a → IsCovered index.new d a) }
    ensures covers { OnOk result (All (IsCovered index.new document.now) (run_addresses runs.now)) }
    ensures grows { Grows index.old.nodes index.new.nodes }
    ensures refused { OnErr result (index.new ≡ index.old) }
{
    let mark = index.mark();
    let spans = run_spans(alloc, runs)?;
    let spans = joined(alloc, spans.as_slice())?;
    let Ok(()) = index.add_all(&spans, document) else {
        index.back(&mark);
        return Err(Memory);
    };
    Ok(())
}

/// How many bytes the runs have, where the type has the number.
#[tactic(auto, using(std::proofs::lemmas::List::Sums::sum_by_more))]
pub(crate) fn total_bytes(runs: &[Run]) -> Option<u32>
    ensures { IfSome result (λ total. total ≡ total_bytes runs.now) }
{
    let mut total: u32 = 0;
    for run in runs {
        total = total.checked_add(run.length)?;
    }
    Some(total)
}
