//! Rows of bottom nodes, with what stands in a gap exchanged. Rows that stay are copied as they are.
ghost use Rattle.std.specs.Prelude.{◌≡◌, ◌≢◌, ◌⊎◌, ◌<◌, ◌++◌, [], map, length, All, IsTrue, false, IfOk, OnOk};
ghost use Rattle.tumbler.specs.Places.{IsUpTo, IsTumbler, Fits, comes_before, sum};
ghost use Rattle.tumbler.specs.Laws.{StandsBefore};
ghost use Rattle.enfilade_core.specs.Rows.{moved, branch_rows, rows_table, node_at, IsBottom};
ghost use Rattle.enfilade_core.specs.Axes.{InOrder, IsWellFormedRow, IsWellFormedRows};
ghost use Rattle.enfilade_core.specs.WellFormed.{IsWellFormedPart};
ghost use Rattle.enfilade_core.specs.Summary.{height_of};
ghost use Rattle.enfilade_core.specs.Plain.{plain_row};
ghost use Rattle.enfilade_core.specs.Edits.{taken_out, shift_coordinate, shift_row, shifted};
ghost use Rattle.enfilade_core.specs.Exchange.{exchanged, Grows, MayHaveRows};
ghost use Rattle.enfilade_core.specs.Packing.{back};
ghost use Rattle.enfilade_core.specs.Touched.{KeepsOrigin, StaysPast};

use crate::arena::Arena;
use crate::check_children::is_same;
use crate::exchange::{append_copies, count_before, rows_exchanged};
use crate::gap::Gap;
use crate::list_rows::append_moved;
use crate::move_children::rows_moved;
use crate::pack_children::row_back;
use crate::plane::Plane;
use crate::rebuild_node::seen_from;
use crate::tree::{Branch, Children, Row};
use std::alloc::Global;
use tumbler::laws::is_tumbler;
use tumbler::{List, Memory, Tumbler};

/// Whether an origin comes before a coordinate, or is zero.
fn stands_before(origin: &Tumbler, coordinate: &Tumbler) -> bool
    ensures { IsTrue result → StandsBefore origin.now coordinate.now }
{
    if origin.places().is_empty() {
        return true;
    }
    origin.is_before(coordinate)
}

/// Whether rows stand behind an origin on both axes.
fn stand_past<L>(rows: &[Row<L>], first: &Tumbler, second: &Tumbler) -> bool
    ensures first { IsTrue result → All (λ row. StandsBefore first.now row.first) rows.now }
    ensures second { IsTrue result → All (λ row. StandsBefore second.now row.second) rows.now }
{
    for row in rows {
        if !stands_before(first, &row.first) {
            return false;
        }
        if !stands_before(second, &row.second) {
            return false;
        }
    }
    true
}

/// Whether what is behind a gap stays behind an origin: it does not move, or to a coordinate behind it.
fn stays_past(first: &Tumbler, gap: &Gap) -> bool
    ensures { IsTrue result → StaysPast first.now gap.now }
{
    if is_same(&gap.to, &gap.onto) {
        return true;
    }
    stands_before(first, &gap.onto)
}

/// Whether rows that come in, and what an exchange moves, stand behind an origin.
fn keeps_origin<L>(first: &Tumbler, second: &Tumbler, gap: &Gap, rows: &[Row<L>]) -> bool
    ensures { IsTrue result → KeepsOrigin first.now second.now gap.now rows.now }
{
    if !stays_past(first, gap) {
        return false;
    }
    stand_past(rows, first, second)
}

/// Rows, as they are seen from an origin, go behind others.
fn append_rows_back<P: Plane>(
    alloc: Global,
    rows: &[Row<P::Leaf>],
    first: &Tumbler,
    second: &Tumbler,
    into: &mut List<Row<P::Leaf>>,
) -> Result<(), Memory>
    requires first_before { All (λ row. StandsBefore first.now row.first) rows.now }
    requires second_before { All (λ row. StandsBefore second.now row.second) rows.now }
    ensures { OnOk result (map (plain_row P.plain) into.new.items ≡ map (plain_row P.plain) into.old.items ++ map (back first.now second.now) (map (plain_row P.plain) rows.now)) }
{
    for row in rows {
        into.push(row_back::<P>(alloc, row, first, second)?)?;
    }
    Ok(())
}

/// A row of a bottom node behind a gap, where it comes to stand, seen from the node's origin.
fn row_shifted_back<P: Plane>(
    alloc: Global,
    row: &Row<P::Leaf>,
    first: &Tumbler,
    second: &Tumbler,
    gap: &Gap,
) -> Result<Row<P::Leaf>, Memory>
    requires fits { Fits first.now row.now.first }
    requires past { comes_before (sum first.now row.now.first) gap.now.to ≡ false }
    requires well_formed { IsTumbler (shift_coordinate gap.now.to gap.now.onto (sum first.now row.now.first)) }
    requires up_to { IsUpTo first.now (shift_coordinate gap.now.to gap.now.onto (sum first.now row.now.first)) }
    ensures { IfOk result (λ made. plain_row P.plain made ≡ back first.now second.now (shift_row gap.now.to gap.now.onto (moved first.now second.now (plain_row P.plain row.now)))) }
{
    let coordinate = first.add(&row.first);
    let distance = coordinate.minus(&gap.to);
    let there = gap.onto.add(&distance);
    is_tumbler(&row.second);
    Ok(Row {
        first: there.minus(first),
        second: row.second.copy(),
        leaf: P::copy_leaf(alloc, &row.leaf)?,
    })
}

/// Rows of a bottom node behind a gap go behind others, where they come to stand.
fn append_shifted_back<P: Plane>(
    alloc: Global,
    rows: &[Row<P::Leaf>],
    first: &Tumbler,
    second: &Tumbler,
    gap: &Gap,
    into: &mut List<Row<P::Leaf>>,
) -> Result<(), Memory>
    requires fits { All (IsWellFormedRow P.widths) (map (moved first.now second.now) (map (plain_row P.plain) rows.now)) }
    requires past { All (λ row. comes_before row.first gap.now.to ≡ false) (map (moved first.now second.now) (map (plain_row P.plain) rows.now)) }
    requires well_formed { All (IsWellFormedRow P.widths) (shifted gap.now.to gap.now.onto (map (moved first.now second.now) (map (plain_row P.plain) rows.now))) }
    requires stands { StandsBefore first.now gap.now.onto }
    ensures { OnOk result (map (plain_row P.plain) into.new.items ≡ map (plain_row P.plain) into.old.items ++ map (back first.now second.now) (shifted gap.now.to gap.now.onto (map (moved first.now second.now) (map (plain_row P.plain) rows.now)))) }
{
    for row in rows {
        into.push(row_shifted_back::<P>(alloc, row, first, second, gap)?)?;
    }
    Ok(())
}

/// Rows of a bottom node behind a gap go behind others, where they come to stand. Where the gap moves nothing they are
/// copied as they are.
fn append_past<P: Plane>(
    alloc: Global,
    rows: &[Row<P::Leaf>],
    first: &Tumbler,
    second: &Tumbler,
    gap: &Gap,
    into: &mut List<Row<P::Leaf>>,
) -> Result<(), Memory>
    requires own { All (IsWellFormedRow P.widths) (map (plain_row P.plain) rows.now) }
    requires fits { All (IsWellFormedRow P.widths) (map (moved first.now second.now) (map (plain_row P.plain) rows.now)) }
    requires past { All (λ row. comes_before row.first gap.now.to ≡ false) (map (moved first.now second.now) (map (plain_row P.plain) rows.now)) }
    requires well_formed { All (IsWellFormedRow P.widths) (shifted gap.now.to gap.now.onto (map (moved first.now second.now) (map (plain_row P.plain) rows.now))) }
    requires stays { StaysPast first.now gap.now }
    ensures { OnOk result (map (plain_row P.plain) into.new.items ≡ map (plain_row P.plain) into.old.items ++ map (back first.now second.now) (shifted gap.now.to gap.now.onto (map (moved first.now second.now) (map (plain_row P.plain) rows.now)))) }
{
    if is_same(&gap.to, &gap.onto) {
        return append_copies::<P>(alloc, rows, into);
    }
    append_shifted_back::<P>(alloc, rows, first, second, gap, into)
}

/// Rows of a bottom node, seen from its origin, with those in the gap exchanged. What was taken out goes
/// behind `out`, with the places that it had.
fn rows_kept<P: Plane>(
    alloc: Global,
    old: &[Row<P::Leaf>],
    first: &Tumbler,
    second: &Tumbler,
    gap: &Gap,
    rows: &[Row<P::Leaf>],
    out: &mut List<Row<P::Leaf>>,
) -> Result<List<Row<P::Leaf>>, Memory>
    requires up_to { IsUpTo gap.now.from gap.now.to }
    requires keeps { KeepsOrigin first.now second.now gap.now rows.now }
    requires own { All (IsWellFormedRow P.widths) (map (plain_row P.plain) old.now) }
    requires ordered { InOrder (map (plain_row P.plain) old.now) }
    requires there { IsWellFormedRows P.widths (map (moved first.now second.now) (map (plain_row P.plain) old.now)) }
    requires well_formed { All (IsWellFormedRow P.widths) (exchanged gap.now (map (plain_row P.plain) rows.now) (map (moved first.now second.now) (map (plain_row P.plain) old.now))) }
    ensures rows { IfOk result (λ made. map (plain_row P.plain) made.items ≡ map (back first.now second.now) (exchanged gap.now (map (plain_row P.plain) rows.now) (map (moved first.now second.now) (map (plain_row P.plain) old.now)))) }
    ensures out { OnOk result (map (plain_row P.plain) out.new.items ≡ map (plain_row P.plain) out.old.items ++ taken_out gap.now.from gap.now.to (map (moved first.now second.now) (map (plain_row P.plain) old.now))) }
{
    let (before, _) = old.split_at(count_before(old, &seen_from(&gap.from, first)));
    let (up_to, past) = old.split_at(count_before(old, &seen_from(&gap.to, first)));
    let (_, within) = up_to.split_at(before.len());
    let mut made = List::new(alloc);
    made.reserve(old.len().saturating_add(rows.len()))?;
    append_copies::<P>(alloc, before, &mut made)?;
    append_rows_back::<P>(alloc, rows, first, second, &mut made)?;
    append_moved::<P>(alloc, within, first, second, out)?;
    append_past::<P>(alloc, past, first, second, gap, &mut made)?;
    Ok(made)
}

impl<P: Plane> Arena<P> {
    /// A branch to a bottom node, with what stands in a gap exchanged, if any row is left. The new node has an origin of
    /// its own.
    fn bottom_opened(
        &mut self,
        branch: &Branch,
        gap: &Gap,
        rows: &[Row<P::Leaf>],
        out: &mut List<Row<P::Leaf>>,
    ) -> Result<Option<Branch>, Memory>
        requires bottom { IsBottom (node_at self.old branch.now.node.0) }
        requires up_to { IsUpTo gap.now.from gap.now.to }
        requires part { IsWellFormedPart P.widths self.old branch.now }
        requires well_formed { IsWellFormedRows P.widths (exchanged gap.now (map (plain_row P.plain) rows.now) (branch_rows (rows_table self.old) branch.now)) }
        ensures grows { Grows self.old self.new }
        ensures rows { IfOk result (MayHaveRows P.widths self.new (height_of P.widths self.old branch.now.node.0) (exchanged gap.now (map (plain_row P.plain) rows.now) (branch_rows (rows_table self.old) branch.now))) }
        ensures out { OnOk result (map (plain_row P.plain) out.new.items ≡ map (plain_row P.plain) out.old.items ++ taken_out gap.now.from gap.now.to (branch_rows (rows_table self.old) branch.now)) }
    {
        let alloc = self.allocator();
        let old = rows_moved::<P>(
            alloc,
            self.rows_under(branch.node),
            &branch.first,
            &branch.second,
        )?;
        let made = rows_exchanged::<P>(alloc, old.as_slice(), gap, rows, out)?;
        if made.is_empty() {
            return Ok(None);
        }
        let branch = self.rows_packed(made.as_slice())?;
        Ok(Some(branch))
    }

    /// A branch to a bottom node, with what stands in a gap exchanged, if any row is left. The new node has the old one's
    /// origin.
    fn bottom_kept(
        &mut self,
        branch: &Branch,
        gap: &Gap,
        rows: &[Row<P::Leaf>],
        out: &mut List<Row<P::Leaf>>,
    ) -> Result<Option<Branch>, Memory>
        requires bottom { IsBottom (node_at self.old branch.now.node.0) }
        requires keeps { KeepsOrigin branch.now.first branch.now.second gap.now rows.now }
        requires up_to { IsUpTo gap.now.from gap.now.to }
        requires part { IsWellFormedPart P.widths self.old branch.now }
        requires well_formed { IsWellFormedRows P.widths (exchanged gap.now (map (plain_row P.plain) rows.now) (branch_rows (rows_table self.old) branch.now)) }
        ensures grows { Grows self.old self.new }
        ensures rows { IfOk result (MayHaveRows P.widths self.new (height_of P.widths self.old branch.now.node.0) (exchanged gap.now (map (plain_row P.plain) rows.now) (branch_rows (rows_table self.old) branch.now))) }
        ensures out { OnOk result (map (plain_row P.plain) out.new.items ≡ map (plain_row P.plain) out.old.items ++ taken_out gap.now.from gap.now.to (branch_rows (rows_table self.old) branch.now)) }
    {
        let alloc = self.allocator();
        let made = rows_kept::<P>(
            alloc,
            self.rows_under(branch.node),
            &branch.first,
            &branch.second,
            gap,
            rows,
            out,
        )?;
        if made.is_empty() {
            return Ok(None);
        }
        let packed = self.placed(
            Children::Bottom(made),
            branch.first.copy(),
            branch.second.copy(),
        )?;
        Ok(Some(packed))
    }

    /// A branch to a bottom node, with what stands in a gap exchanged, if any row is left. It keeps its
    /// origin, unless a row would come to stand before it or on it on some axis.
    pub(crate) fn bottom_exchanged(
        &mut self,
        branch: &Branch,
        gap: &Gap,
        rows: &[Row<P::Leaf>],
        out: &mut List<Row<P::Leaf>>,
    ) -> Result<Option<Branch>, Memory>
        requires bottom { IsBottom (node_at self.old branch.now.node.0) }
        requires up_to { IsUpTo gap.now.from gap.now.to }
        requires part { IsWellFormedPart P.widths self.old branch.now }
        requires well_formed { IsWellFormedRows P.widths (exchanged gap.now (map (plain_row P.plain) rows.now) (branch_rows (rows_table self.old) branch.now)) }
        ensures grows { Grows self.old self.new }
        ensures rows { IfOk result (MayHaveRows P.widths self.new (height_of P.widths self.old branch.now.node.0) (exchanged gap.now (map (plain_row P.plain) rows.now) (branch_rows (rows_table self.old) branch.now))) }
        ensures out { OnOk result (map (plain_row P.plain) out.new.items ≡ map (plain_row P.plain) out.old.items ++ taken_out gap.now.from gap.now.to (branch_rows (rows_table self.old) branch.now)) }
    {
        if keeps_origin(&branch.first, &branch.second, gap, rows) {
            return self.bottom_kept(branch, gap, rows, out);
        }
        self.bottom_opened(branch, gap, rows, out)
    }
}
