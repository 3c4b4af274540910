//! What documents show, as runs.
ghost use Rattle.std.specs.Prelude.{◌≡◌, ◌↔◌, All, IfOk};
ghost use Rattle.enfilade_core.specs.Rows.{rows_of};
ghost use Rattle.links.specs.LinkLists.{IsRun};
ghost use Rattle.page_tables.specs.declared.tables.TableDocument.{TableDocument as TableRow};
ghost use Rattle.poom.specs.Edited.{IsContentRun, run_addresses};
ghost use Rattle.poom.specs.Laid.{IsRoot, texts};
ghost use Rattle.green_flush.specs.inside.Showing.{whole_text, AreRunsOf};

use enfilade_core::Node;
use febe_data::{List, Memory, Run, Span, Tumbler};
use page_tables::TableDocument;
use poom::Poom;
use std::alloc::Global;

/// The V-addresses of all text.
fn whole_text(alloc: Global) -> Span
    ensures { result ≡ whole_text }
{
    Span {
        start: Tumbler::width(alloc, 1, 1),
        width: Tumbler::width(alloc, 1, 1),
    }
}

/// The runs of all of a document's text.
fn text_runs(
    alloc: Global,
    poom: &Poom,
    root: Node,
    document: &Tumbler,
) -> Result<List<Run>, Memory>
    requires { IsRoot poom.now root.0 }
    ensures bytes { IfOk result (λ runs. run_addresses runs.items ≡ texts (rows_of poom.now root.0)) }
    ensures origin { IfOk result (λ runs. All (λ run. run.origin ≡ document.now) runs.items) }
    ensures content { IfOk result (λ runs. All IsContentRun runs.items) }
{
    let span = whole_text(alloc);
    let runs = poom.picked(root, document, &span)?;
    Ok(runs)
}

/// The runs of what the documents show, each read through its document.
pub(crate) fn shown_runs(
    alloc: Global,
    poom: &Poom,
    documents: &[TableDocument],
) -> Result<List<Run>, Memory>
    requires { All (λ (row : TableRow). IsRoot poom.now row.root) documents.now }
    ensures { IfOk result (λ runs. AreRunsOf poom.now documents.now runs.items) }
{
    let mut runs = List::new(alloc);
    for row in documents {
        let Some(root) = poom.arena().at_number(row.root) else {
            return Err(Memory);
        };
        let shown = text_runs(alloc, poom, root, &row.document)?;
        runs.extend_from_slice(shown.as_slice())?;
    }
    Ok(runs)
}
