//! Rows that come in together, where no other stands between them.
ghost use Rattle.std.specs.Prelude.{◌≡◌, ℕ, ◌<◌, List as ListOf, ◌++◌, ◌∷◌, length, true, All, IfOk, OnOk};
ghost use Rattle.std.specs.List.Sorted.{IsPermutation};
ghost use Rattle.tumbler.specs.Places.{IsUpTo};
ghost use Rattle.tumbler.specs.Span.{SpanFits};
ghost use Rattle.enfilade_core.specs.declared.tree.Row.{Row};
ghost use Rattle.enfilade_core.specs.Rows.{rows_of};
ghost use Rattle.enfilade_core.specs.Summary.{depth_of};
ghost use Rattle.enfilade_core.specs.Exchange.{Grows};
ghost use Rattle.enfilade_core.specs.Edits.{KeepsRows};
ghost use Rattle.enfilade_core.specs.Axes.{IsWellFormedRow, InOrder};
ghost use Rattle.enfilade_core.specs.Planes.{key_widths};
ghost use Rattle.spanfilade.specs.Index.{row_of, rows_for};
ghost use Rattle.spanfilade.specs.Groups.{with_group, FitsAsGroup, LeavesRoom};

use crate::spanfilade::row_of;
use enfilade_core::laws::nodes_are_well_formed;
use enfilade_core::{Arena, KeyPlane, Node, Row};
use tumbler::{List, Memory, Span, Tumbler};

/// Whether a span can come in behind the rows of a group: none of them starts behind it, and no row of the tree
/// stands between the first of them and the span.
fn goes_on(arena: &Arena<KeyPlane>, root: Node, group: &[Row<Tumbler>], span: &Span) -> bool
    requires below { root.0 < length arena.now }
    requires ordered { InOrder group.now }
    ensures up_to { result ≡ true → All (λ (row : Row (ListOf ℕ)). IsUpTo row.first span.now.start) group.now }
    ensures room { result ≡ true → LeavesRoom span.now.start group.now (rows_of arena.now root.0) }
{
    nodes_are_well_formed(arena);
    let count = group.len();
    if count == 0 {
        return true;
    }
    let last = &group[count - 1];
    if span.start.is_before(&last.first) {
        return false;
    }
    let first = &group[0];
    match arena.row_before(root, &span.start) {
        Some(row) => row.first.is_before(&first.first),
        None => true,
    }
}

/// The tree with a group of rows.
fn put_group(
    arena: &mut Arena<KeyPlane>,
    root: Node,
    group: &List<Row<Tumbler>>,
) -> Result<Node, Memory>
    requires below { root.0 < length arena.old }
    requires well_formed { All (IsWellFormedRow key_widths) group.now.items }
    requires fits { FitsAsGroup group.now.items (rows_of arena.old root.0) }
    ensures kept { KeepsRows arena.old arena.new }
    ensures grows { Grows arena.old arena.new }
    ensures below { IfOk result (λ made. made.0 < length arena.new) }
    ensures level { IfOk result (λ made. depth_of key_widths arena.new made.0 ≡ depth_of key_widths arena.old root.0) }
    ensures rows { IfOk result (λ made. rows_of arena.new made.0 ≡ with_group group.now.items (rows_of arena.old root.0)) }
{
    nodes_are_well_formed(arena);
    if group.is_empty() {
        return Ok(root);
    }
    let at = group.as_slice()[0].first.copy();
    let made = arena.splice(root, &at, group)?;
    Ok(made)
}

/// Adds a span's row to the group. Where the span can't go on with it, the group comes in first, and the row
/// begins another.
fn take_span(
    arena: &mut Arena<KeyPlane>,
    root: Node,
    group: &mut List<Row<Tumbler>>,
    span: &Span,
    key: &Tumbler,
) -> Result<Node, Memory>
    requires below { root.0 < length arena.old }
    requires span { SpanFits span.now }
    requires well_formed { All (IsWellFormedRow key_widths) group.old.items }
    requires fits { FitsAsGroup group.old.items (rows_of arena.old root.0) }
    ensures kept { KeepsRows arena.old arena.new }
    ensures grows { Grows arena.old arena.new }
    ensures below { IfOk result (λ made. made.0 < length arena.new) }
    ensures well_formed { OnOk result (All (IsWellFormedRow key_widths) group.new.items) }
    ensures fits { IfOk result (λ made. FitsAsGroup group.new.items (rows_of arena.new made.0)) }
    ensures level { IfOk result (λ made. depth_of key_widths arena.new made.0 ≡ depth_of key_widths arena.old root.0) }
    ensures rows { IfOk result (λ made. IsPermutation (row_of span.now key.now ∷ (group.old.items ++ rows_of arena.old root.0)) (group.new.items ++ rows_of arena.new made.0)) }
{
    if goes_on(arena, root, group.as_slice(), span) {
        group.push(row_of(span, key))?;
        return Ok(root);
    }
    let root = put_group(arena, root, group)?;
    group.truncate(0);
    group.push(row_of(span, key))?;
    Ok(root)
}

/// The tree with the spans' rows. Where the spans are sorted there is one copy of the path for each gap that they
/// come into.
pub(crate) fn put_all(
    arena: &mut Arena<KeyPlane>,
    root: Node,
    spans: &[Span],
    key: &Tumbler,
) -> Result<Node, Memory>
    requires below { root.0 < length arena.old }
    requires fit { All SpanFits spans.now }
    ensures kept { KeepsRows arena.old arena.new }
    ensures grows { Grows arena.old arena.new }
    ensures below { IfOk result (λ made. made.0 < length arena.new) }
    ensures level { IfOk result (λ made. depth_of key_widths arena.new made.0 ≡ depth_of key_widths arena.old root.0) }
    ensures rows { IfOk result (λ made. IsPermutation (rows_for spans.now key.now ++ rows_of arena.old root.0) (rows_of arena.new made.0)) }
    ensures ordered { IfOk result (λ made. InOrder (rows_of arena.new made.0)) }
{
    let mut group = List::new(arena.allocator());
    let mut root = root;
    for span in spans {
        root = take_span(arena, root, &mut group, span, key)?;
    }
    let made = put_group(arena, root, &group)?;
    nodes_are_well_formed(arena);
    Ok(made)
}
