//! What is sought below a node, up to a limit.
ghost use Rattle.std.specs.Prelude.{◌≡◌, ◌++◌, ◌<◌, ◌≤◌, not, map, length, All, IfOk, OnOk, IfSome, IfNone};
ghost use Rattle.std.specs.List.{filter};
ghost use Rattle.tumbler.specs.Places.{sum};
ghost use Rattle.tumbler.specs.Span.{SpanFits};
ghost use Rattle.enfilade_core.specs.Rows.{moved, rows_of};
ghost use Rattle.enfilade_core.specs.Axes.{IsWellFormedRow, InOrder, first_axis};
ghost use Rattle.enfilade_core.specs.Plain.{plain_row};
ghost use Rattle.enfilade_core.specs.Laws.{rows_from};
ghost use Rattle.enfilade_search.specs.Meeting.{meets};
ghost use Rattle.enfilade_search.specs.Sought.{is_sought, is_past, FitsAt, ChildFits};
ghost use Rattle.enfilade_search.specs.Limits.{HoldsUpTo};

use crate::gather::take_row;
use crate::sought::{By, Sought};
use enfilade_core::laws::nodes_are_well_formed;
use enfilade_core::{Arena, Branch, Children, Node, Plane, Row};
use std::alloc::Global;
use tumbler::{List, Memory, Span, Tumbler};

/// The rows from a base that are sought, behind `out`, until that has more of them than the limit.
fn take_rows_up_to<P: Plane>(
    alloc: Global,
    rows: &[Row<P::Leaf>],
    first: &Tumbler,
    second: &Tumbler,
    sought: &Sought,
    limit: usize,
    out: &mut List<Row<P::Leaf>>,
) -> Result<(), Memory>
    requires own { All (IsWellFormedRow P.widths) (map (plain_row P.plain) rows.now) }
    requires there { All (IsWellFormedRow P.widths) (map (moved first.now second.now) (map (plain_row P.plain) rows.now)) }
    requires ordered { InOrder (map (moved first.now second.now) (map (plain_row P.plain) rows.now)) }
    ensures { OnOk result (HoldsUpTo limit (map (plain_row P.plain) out.old.items ++ filter (is_sought P.widths sought.now) (map (moved first.now second.now) (map (plain_row P.plain) rows.now))) (map (plain_row P.plain) out.new.items)) }
{
    for row in rows {
        if out.len() > limit {
            return Ok(());
        }
        if !take_row::<P>(alloc, row, first, second, sought, out)? {
            return Ok(());
        }
    }
    Ok(())
}

/// The rows of a node from a base that are sought, behind `out`, until that has more of them than the limit.
#[cycle(below)]
fn gather_up_to<P: Plane>(
    arena: &Arena<P>,
    node: Node,
    first: &Tumbler,
    second: &Tumbler,
    sought: &Sought,
    limit: usize,
    out: &mut List<Row<P::Leaf>>,
) -> Result<(), Memory>
    requires { FitsAt P.widths arena.now node.0 first.now second.now }
    ensures { OnOk result (HoldsUpTo limit (map (plain_row P.plain) out.old.items ++ filter (is_sought P.widths sought.now) (rows_from arena.now node.0 first.now second.now)) (map (plain_row P.plain) out.new.items)) }
{
    let alloc = arena.allocator();
    match arena.node(node) {
        Children::Bottom(rows) => take_rows_up_to::<P>(
            alloc,
            rows.as_slice(),
            first,
            second,
            sought,
            limit,
            out,
        ),
        Children::Inner(branches) => {
            let children = branches.as_slice();
            for child in children {
                if out.len() > limit {
                    return Ok(());
                }
                if !gather_child_up_to(arena, child, first, second, sought, limit, out)? {
                    return Ok(());
                }
            }
            Ok(())
        }
    }
}

/// The rows of a child that are sought, behind `out`, until that has more of them than the limit, where the
/// child's node is seen from a base. The answer is whether rows behind the child can be sought too.
#[cycle(below)]
fn gather_child_up_to<P: Plane>(
    arena: &Arena<P>,
    child: &Branch,
    first: &Tumbler,
    second: &Tumbler,
    sought: &Sought,
    limit: usize,
    out: &mut List<Row<P::Leaf>>,
) -> Result<bool, Memory>
    requires { ChildFits P.widths arena.now child.now first.now second.now }
    ensures gathered { OnOk result (HoldsUpTo limit (map (plain_row P.plain) out.old.items ++ filter (is_sought P.widths sought.now) (rows_from arena.now child.now.node.0 (sum first.now child.now.first) (sum second.now child.now.second))) (map (plain_row P.plain) out.new.items)) }
    ensures goes_on { IfOk result (λ more. more ≡ not (is_past sought.now (sum first.now child.now.first))) }
{
    nodes_are_well_formed(arena);
    let first = first.add(&child.first);
    if sought.is_past(&first) {
        return Ok(false);
    }
    if !sought.can_be_below(child, &first, second) {
        return Ok(true);
    }
    let second = second.add(&child.second);
    gather_up_to(arena, child.node, &first, &second, sought, limit, out)?;
    Ok(true)
}

/// The rows of a tree that are sought, or nothing where there are more of them than the limit.
fn found_up_to<P: Plane>(
    arena: &Arena<P>,
    root: Node,
    sought: &Sought,
    limit: usize,
) -> Result<Option<List<Row<P::Leaf>>>, Memory>
    requires { root.0 < length arena.now }
    ensures rows { IfOk result (λ found. IfSome found (λ made. map (plain_row P.plain) made.items ≡ filter (is_sought P.widths sought.now) (rows_of arena.now root.0))) }
    ensures few { IfOk result (λ found. IfSome found (λ made. length made.items ≤ limit)) }
    ensures more { IfOk result (λ found. IfNone found (limit < length (filter (is_sought P.widths sought.now) (rows_of arena.now root.0)))) }
{
    let alloc = arena.allocator();
    let zero = Tumbler::zero(alloc);
    let mut out = List::new(alloc);
    gather_up_to(arena, root, &zero, &zero, sought, limit, &mut out)?;
    if out.len() > limit {
        return Ok(None);
    }
    Ok(Some(out))
}

/// The rows that meet a span by what they take up on the first axis, in order, where there are at most `limit` of
/// them, and nothing where there are more.
///
/// It stops as soon as it has found more than `limit`.
pub fn overlapping_up_to<P: Plane>(
    arena: &Arena<P>,
    root: Node,
    span: &Span,
    limit: usize,
) -> Result<Option<List<Row<P::Leaf>>>, Memory>
    requires there { root.0 < length arena.now }
    requires fits { SpanFits span.now }
    ensures rows { IfOk result (λ found. IfSome found (λ made. map (plain_row P.plain) made.items ≡ filter (meets (first_axis P.widths) span.now) (rows_of arena.now root.0))) }
    ensures few { IfOk result (λ found. IfSome found (λ made. length made.items ≤ limit)) }
    ensures more { IfOk result (λ found. IfNone found (limit < length (filter (meets (first_axis P.widths) span.now) (rows_of arena.now root.0)))) }
{
    let sought = Sought {
        from: span.start.copy(),
        to: span.start.add(&span.width),
        by: By::First,
    };
    found_up_to(arena, root, &sought, limit)
}
