//! The indexes of the three ends, changed together.
ghost use Rattle.std.specs.Prelude.{◌≡◌, ◌++◌, All, OnOk, OnErr};
ghost use Rattle.tumbler.specs.Span.{SpanFits};
ghost use Rattle.enfilade_core.specs.Exchange.{Grows};
ghost use Rattle.spanfilade.specs.Index.{rows_for};
ghost use Rattle.links.specs.inside.Kept.{AddsRows};

use spanfilade::Spanfilade;
use tumbler::{List, Memory, Span, Tumbler};

/// Adds the spans of each end to its index, or none at all: where one is refused all go back to what they were.
pub(crate) fn add_to_all(
    from: &mut Spanfilade,
    to: &mut Spanfilade,
    three: &mut Spanfilade,
    from_spans: &List<Span>,
    to_spans: &List<Span>,
    three_spans: &List<Span>,
    id: &Tumbler,
) -> Result<(), Memory>
    requires from { All SpanFits from_spans.now.items }
    requires to { All SpanFits to_spans.now.items }
    requires three { All SpanFits three_spans.now.items }
    ensures added { OnOk result (AddsRows (rows_for from_spans.now.items id.now) from.old from.new × AddsRows (rows_for to_spans.now.items id.now) to.old to.new × AddsRows (rows_for three_spans.now.items id.now) three.old three.new) }
    ensures refused { OnErr result ((from.new ≡ from.old) × (to.new ≡ to.old) × (three.new ≡ three.old)) }
    ensures grows { Grows from.old.nodes from.new.nodes × Grows to.old.nodes to.new.nodes × Grows three.old.nodes three.new.nodes }
{
    let from_mark = from.mark();
    let to_mark = to.mark();
    let three_mark = three.mark();
    let Ok(()) = from.add_all(from_spans, id) else {
        from.back(&from_mark);
        return Err(Memory);
    };
    let Ok(()) = to.add_all(to_spans, id) else {
        to.back(&to_mark);
        from.back(&from_mark);
        return Err(Memory);
    };
    let Ok(()) = three.add_all(three_spans, id) else {
        three.back(&three_mark);
        to.back(&to_mark);
        from.back(&from_mark);
        return Err(Memory);
    };
    Ok(())
}
