//! What is sought below a node.
ghost use Rattle.std.specs.Prelude.{◌≡◌, ◌||◌, ◌++◌, ◌∷◌, [], ◌<◌, true, false, not, map, length, All, IfOk, OnOk};
ghost use Rattle.std.specs.List.{filter};
ghost use Rattle.tumbler.specs.Places.{comes_before, sum};
ghost use Rattle.enfilade_core.specs.Rows.{moved, rows_of};
ghost use Rattle.enfilade_core.specs.Axes.{IsWellFormedRow, InOrder};
ghost use Rattle.enfilade_core.specs.Plain.{plain_row};
ghost use Rattle.enfilade_core.specs.Laws.{rows_from};
ghost use Rattle.enfilade_core.specs.Touched.{IsSeenFrom};
ghost use Rattle.enfilade_search.specs.declared.sought.By.TheVariants.{Second};
ghost use Rattle.enfilade_search.specs.Sought.{is_sought, is_past, FitsAt, ChildFits};

use crate::sought::{By, Sought};
use enfilade_core::laws::nodes_are_well_formed;
use enfilade_core::{Arena, Branch, Children, Node, Plane, Row};
use std::alloc::Global;
use tumbler::laws::is_tumbler;
use tumbler::{List, Memory, Tumbler};

/// The row from a base, if it is sought, behind `out`. The answer is whether rows behind it can be sought too.
pub(crate) fn take_row<P: Plane>(
    alloc: Global,
    row: &Row<P::Leaf>,
    first: &Tumbler,
    second: &Tumbler,
    sought: &Sought,
    out: &mut List<Row<P::Leaf>>,
) -> Result<bool, Memory>
    requires own { IsWellFormedRow P.widths (plain_row P.plain row.now) }
    requires there { IsWellFormedRow P.widths (moved first.now second.now (plain_row P.plain row.now)) }
    ensures taken { OnOk result (map (plain_row P.plain) out.new.items ≡ map (plain_row P.plain) out.old.items ++ filter (is_sought P.widths sought.now) (moved first.now second.now (plain_row P.plain row.now) ∷ [])) }
    ensures goes_on { IfOk result (λ more. more ≡ not (is_past sought.now (sum first.now row.now.first))) }
{
    let first = first.add(&row.first);
    if sought.is_past(&first) {
        return Ok(false);
    }
    let second = second.add(&row.second);
    if !sought.is_met::<P>(row, &first, &second) {
        return Ok(true);
    }
    let leaf = P::copy_leaf(alloc, &row.leaf)?;
    out.push(Row {
        first,
        second,
        leaf,
    })?;
    Ok(true)
}

/// The rows from a base that are sought, behind `out`, up to the first behind which none can be.
fn take_rows_in_order<P: Plane>(
    alloc: Global,
    rows: &[Row<P::Leaf>],
    first: &Tumbler,
    second: &Tumbler,
    sought: &Sought,
    out: &mut List<Row<P::Leaf>>,
) -> Result<(), Memory>
    requires own { All (IsWellFormedRow P.widths) (map (plain_row P.plain) rows.now) }
    requires there { All (IsWellFormedRow P.widths) (map (moved first.now second.now) (map (plain_row P.plain) rows.now)) }
    requires ordered { InOrder (map (moved first.now second.now) (map (plain_row P.plain) rows.now)) }
    ensures { OnOk result (map (plain_row P.plain) out.new.items ≡ map (plain_row P.plain) out.old.items ++ filter (is_sought P.widths sought.now) (map (moved first.now second.now) (map (plain_row P.plain) rows.now))) }
{
    for row in rows {
        if !take_row::<P>(alloc, row, first, second, sought, out)? {
            return Ok(());
        }
    }
    Ok(())
}

/// A coordinate, as it is seen from a base. From one behind it, it is zero.
fn seen_from(at: &Tumbler, base: &Tumbler) -> Tumbler
    ensures { IsSeenFrom at.now base.now result }
{
    if at.is_before(base) {
        return Tumbler::zero(at.allocator());
    }
    let seen = at.minus(base);
    is_tumbler(&seen);
    seen
}

/// Whether a row begins where a range ends, or behind that, or ends before it begins, on the second axis. The range is
/// seen from where the row's coordinate is.
fn is_beside<P: Plane>(row: &Row<P::Leaf>, from: &Tumbler, to: &Tumbler) -> bool
    requires { IsWellFormedRow P.widths (plain_row P.plain row.now) }
    ensures { result ≡ (not (comes_before row.now.second to.now) || comes_before (sum row.now.second (P.widths.second (plain_row P.plain row.now))) from.now) }
{
    if !row.second.is_before(to) {
        return true;
    }
    row.second.add(&P::second_width(row)).is_before(from)
}

/// The rows from a base that are sought by the second axis, behind `out`. Most that are not are told without a sum with
/// the base.
fn take_rows_by_second<P: Plane>(
    alloc: Global,
    rows: &[Row<P::Leaf>],
    first: &Tumbler,
    second: &Tumbler,
    sought: &Sought,
    out: &mut List<Row<P::Leaf>>,
) -> Result<(), Memory>
    requires own { All (IsWellFormedRow P.widths) (map (plain_row P.plain) rows.now) }
    requires there { All (IsWellFormedRow P.widths) (map (moved first.now second.now) (map (plain_row P.plain) rows.now)) }
    requires second { sought.now.by ≡ Second }
    ensures { OnOk result (map (plain_row P.plain) out.new.items ≡ map (plain_row P.plain) out.old.items ++ filter (is_sought P.widths sought.now) (map (moved first.now second.now) (map (plain_row P.plain) rows.now))) }
{
    let from = seen_from(&sought.from, second);
    let to = seen_from(&sought.to, second);
    for row in rows {
        if is_beside::<P>(row, &from, &to) {
            continue;
        }
        let _ = take_row::<P>(alloc, row, first, second, sought, out)?;
    }
    Ok(())
}

/// The rows from a base that are sought, behind `out`.
fn take_rows<P: Plane>(
    alloc: Global,
    rows: &[Row<P::Leaf>],
    first: &Tumbler,
    second: &Tumbler,
    sought: &Sought,
    out: &mut List<Row<P::Leaf>>,
) -> Result<(), Memory>
    requires own { All (IsWellFormedRow P.widths) (map (plain_row P.plain) rows.now) }
    requires there { All (IsWellFormedRow P.widths) (map (moved first.now second.now) (map (plain_row P.plain) rows.now)) }
    requires ordered { InOrder (map (moved first.now second.now) (map (plain_row P.plain) rows.now)) }
    ensures { OnOk result (map (plain_row P.plain) out.new.items ≡ map (plain_row P.plain) out.old.items ++ filter (is_sought P.widths sought.now) (map (moved first.now second.now) (map (plain_row P.plain) rows.now))) }
{
    match sought.by {
        By::Second => take_rows_by_second::<P>(alloc, rows, first, second, sought, out),
        By::Place | By::First => take_rows_in_order::<P>(alloc, rows, first, second, sought, out),
    }
}

/// The rows of a node from a base that are sought, behind `out`.
#[cycle(below)]
pub(crate) fn gather<P: Plane>(
    arena: &Arena<P>,
    node: Node,
    first: &Tumbler,
    second: &Tumbler,
    sought: &Sought,
    out: &mut List<Row<P::Leaf>>,
) -> Result<(), Memory>
    requires { FitsAt P.widths arena.now node.0 first.now second.now }
    ensures { OnOk result (map (plain_row P.plain) out.new.items ≡ map (plain_row P.plain) out.old.items ++ filter (is_sought P.widths sought.now) (rows_from arena.now node.0 first.now second.now)) }
{
    let alloc = arena.allocator();
    match arena.node(node) {
        Children::Bottom(rows) => take_rows::<P>(
            alloc,
            rows.as_slice(),
            first,
            second,
            sought,
            out,
        ),
        Children::Inner(branches) => {
            let children = branches.as_slice();
            for child in children {
                if !gather_child(arena, child, first, second, sought, out)? {
                    return Ok(());
                }
            }
            Ok(())
        }
    }
}

/// The rows of a child that are sought, behind `out`, where its node is seen from a base. The answer is whether
/// rows behind the child can be sought too.
#[cycle(below)]
fn gather_child<P: Plane>(
    arena: &Arena<P>,
    child: &Branch,
    first: &Tumbler,
    second: &Tumbler,
    sought: &Sought,
    out: &mut List<Row<P::Leaf>>,
) -> Result<bool, Memory>
    requires { ChildFits P.widths arena.now child.now first.now second.now }
    ensures gathered { OnOk result (map (plain_row P.plain) out.new.items ≡ map (plain_row P.plain) out.old.items ++ filter (is_sought P.widths sought.now) (rows_from arena.now child.now.node.0 (sum first.now child.now.first) (sum second.now child.now.second))) }
    ensures goes_on { IfOk result (λ more. more ≡ not (is_past sought.now (sum first.now child.now.first))) }
{
    nodes_are_well_formed(arena);
    let first = first.add(&child.first);
    if sought.is_past(&first) {
        return Ok(false);
    }
    if !sought.can_be_below(child, &first, second) {
        return Ok(true);
    }
    let second = second.add(&child.second);
    gather(arena, child.node, &first, &second, sought, out)?;
    Ok(true)
}

/// The rows of a tree that are sought.
pub(crate) fn found<P: Plane>(
    arena: &Arena<P>,
    root: Node,
    sought: &Sought,
) -> Result<List<Row<P::Leaf>>, Memory>
    requires { root.0 < length arena.now }
    ensures { IfOk result (λ made. map (plain_row P.plain) made.items ≡ filter (is_sought P.widths sought.now) (rows_of arena.now root.0)) }
{
    let alloc = arena.allocator();
    let zero = Tumbler::zero(alloc);
    let mut out = List::new(alloc);
    gather(arena, root, &zero, &zero, sought, &mut out)?;
    Ok(out)
}
