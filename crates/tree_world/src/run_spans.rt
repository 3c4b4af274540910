//! Runs as spans of content.
ghost use Rattle.std.specs.Prelude.{◌≡◌, map, All, IfOk};
ghost use Rattle.tumbler.specs.Span.{SpanFits};
ghost use Rattle.poom.specs.Edited.{IsContentRun};
ghost use Rattle.links.specs.LinkLists.{run_span};

use febe_data::{List, Memory, Run, Span, Tumbler};
use std::alloc::Global;

/// The addresses of a run's bytes.
fn run_span(run: &Run) -> Span
    requires { IsContentRun run.now }
    ensures value { result ≡ run_span run.now }
    ensures fits { SpanFits result }
{
    let start = run.content.extended(&[0, 1, run.first]).unwrap();
    let width = Tumbler::width(start.allocator(), start.places().len(), run.length);
    Span { start, width }
}

/// The spans of I-addresses of runs, one for each run and in their order.
pub(crate) fn run_spans(alloc: Global, runs: &[Run]) -> Result<List<Span>, Memory>
    requires { All IsContentRun runs.now }
    ensures value { IfOk result (λ made. made.items ≡ map run_span runs.now) }
    ensures fit { IfOk result (λ made. All SpanFits made.items) }
{
    let mut made = List::new(alloc);
    made.reserve(runs.len())?;
    for run in runs {
        made.push(run_span(run))?;
    }
    Ok(made)
}
