//! Rows that are made longer.
ghost use Rattle.std.specs.Prelude.{◌≡◌, ◌<◌, [], true, false, length, IsTrue, IfOk, OnOk, IfSome};
ghost use Rattle.tumbler.specs.Places.{comes_before};
ghost use Rattle.tumbler.specs.Span.{SpanFits};
ghost use Rattle.enfilade_core.specs.Rows.{rows_of};
ghost use Rattle.enfilade_core.specs.Planes.{key_widths};
ghost use Rattle.enfilade_core.specs.Summary.{depth_of};
ghost use Rattle.enfilade_core.specs.Exchange.{Grows};
ghost use Rattle.enfilade_core.specs.Edits.{KeepsRows};
ghost use Rattle.spanfilade.specs.Index.{IsLonger, IsLengthened};

use crate::joining::later;
use enfilade_core::laws::nodes_are_well_formed;
use enfilade_core::{Arena, Gap, KeyPlane, Node, Row};
use tumbler::laws::is_tumbler;
use tumbler::{List, Memory, Span, Tumbler};

/// Whether what ends here goes on with a span: it ends where the span starts, or behind that. A span of no width is at
/// its place alone, so that only an end behind it does.
fn is_reached(end: &Tumbler, span: &Span) -> bool
    ensures up_to { IsTrue result → comes_before end.now span.now.start ≡ false }
    ensures inside { IsTrue result → span.now.width ≡ [] → comes_before span.now.start end.now ≡ true }
{
    if span.width.places().is_empty() {
        return span.start.is_before(end);
    }
    !end.is_before(&span.start)
}

/// The last row before a span's start, made longer up to the span's end, if it is of the key and the span begins
/// in it, or where it ends and has a width.
pub(crate) fn longer_row(
    arena: &Arena<KeyPlane>,
    root: Node,
    span: &Span,
    key: &Tumbler,
) -> Option<Row<Tumbler>>
    requires below { root.0 < length arena.now }
    requires span { SpanFits span.now }
    ensures { IfSome result (λ made. IsLonger span.now key.now (rows_of arena.now root.0) made) }
{
    nodes_are_well_formed(arena);
    let Some(row) = arena.row_before(root, &span.start) else {
        return None;
    };
    if row.second != *key {
        return None;
    }
    let end = row.first.add(row.leaf);
    if !is_reached(&end, span) {
        return None;
    }
    let to = later(&end, &span.start.add(&span.width));
    is_tumbler(&to);
    let width = to.minus(&row.first);
    is_tumbler(&width);
    is_tumbler(&row.first);
    is_tumbler(&row.second);
    Some(Row {
        first: row.first.copy(),
        second: row.second.copy(),
        leaf: width,
    })
}

/// The tree with the longer row in the place of the one that it was made of, if no other row has its start.
pub(crate) fn put_longer(
    arena: &mut Arena<KeyPlane>,
    root: Node,
    row: Row<Tumbler>,
    span: &Span,
    key: &Tumbler,
) -> Result<Option<Node>, Memory>
    requires below { root.0 < length arena.old }
    requires longer { IsLonger span.now key.now (rows_of arena.old root.0) row }
    ensures kept { KeepsRows arena.old arena.new }
    ensures grows { Grows arena.old arena.new }
    ensures below { IfOk result (λ made. IfSome made (λ made. made.0 < length arena.new)) }
    ensures level { IfOk result (λ made. IfSome made (λ made. depth_of key_widths arena.new made.0 ≡ depth_of key_widths arena.old root.0)) }
    ensures rows { IfOk result (λ made. IfSome made (λ made. IsLengthened span.now key.now (rows_of arena.old root.0) (rows_of arena.new made.0))) }
{
    let alloc = arena.allocator();
    let gap = Gap {
        from: row.first.copy(),
        to: span.start.copy(),
        onto: span.start.copy(),
    };
    let mut rows = List::new(alloc);
    rows.push(row)?;
    let made = arena.exchange(root, &gap, &rows)?;
    if made.out.len() != 1 {
        return Ok(None);
    }
    Ok(Some(made.root))
}
