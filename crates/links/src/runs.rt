//! Runs as spans of addresses.
ghost use Rattle.std.specs.Prelude.{◌≡◌, map, All, IfOk};
ghost use Rattle.tumbler.specs.Span.{SpanFits};
ghost use Rattle.links.specs.LinkLists.{IsRun, run_span};
ghost use Rattle.links.specs.inside.Joined.{IsWide};

use febe_data::Run;
use std::alloc::Global;
use tumbler::{List, Memory, Span, Tumbler};

/// The addresses of the run's bytes.
pub fn run_span(run: &Run) -> Span
    requires { IsRun run.now }
    ensures value { result ≡ run_span run.now }
    ensures fits { SpanFits result }
    ensures wide { IsWide result }
{
    let start = run.content.extended(&[0, 1, run.first]).unwrap();
    let width = Tumbler::width(start.allocator(), start.places().len(), run.length);
    Span { start, width }
}

/// The spans of I-addresses of runs, one for each run and in their order.
pub(crate) fn run_spans(alloc: Global, runs: &[Run]) -> Result<List<Span>, Memory>
    requires { All IsRun runs.now }
    ensures value { IfOk result (λ made. made.items ≡ map run_span runs.now) }
    ensures fit { IfOk result (λ made. All SpanFits made.items) }
{
    let mut made = List::new(alloc);
    for run in runs {
        made.push(run_span(run))?;
    }
    Ok(made)
}
