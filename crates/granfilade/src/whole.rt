//! Bytes that one row has all of: they are found on one path, without memory, and lent as they lie.
ghost use Rattle.std.specs.Prelude.{◌≡◌, ◌≢◌, ◌++◌, ◌∷◌, [], ◌+◌, ◌<◌, ◌≤◌, take, length, map, IfSome, OnOk};
ghost use Rattle.tumbler.specs.Span.{SpanFits};
ghost use Rattle.enfilade_core.specs.Rows.{rows_of};
ghost use Rattle.enfilade_core.specs.Plain.{plain_row};
ghost use Rattle.enfilade_core.specs.Planes.{plain_text};
ghost use Rattle.granfilade.specs.Content.{so_far_on, content, tree_rows, bytes_in};
ghost use Rattle.granfilade.specs.Puts.{IsContent};
ghost use Rattle.granfilade.specs.Whole.{HasWhole, span_from};

use crate::granfilade::Granfilade;
use enfilade_core::{Arena, Children, ContentPlane, Node, Row};
use tumbler::{Memory, Span, Text, Tumbler};

/// Behind how many of so many bytes, the first of them at `first`, those from `start` on begin, if so many of these are
/// among them.
fn offset(first: &Tumbler, long: usize, start: &Tumbler, count: usize) -> Option<usize>
    ensures filled { IfSome result (λ from. first.now ≢ []) }
    ensures start { IfSome result (λ from. start.now ≡ so_far_on first.now from) }
    ensures within { IfSome result (λ from. from + count ≤ long) }
{
    let (begins, front) = first.places().split_last()?;
    let (wanted, beside) = start.places().split_last()?;
    if front != beside {
        return None;
    }
    let from = wanted.checked_sub(*begins)? as usize;
    let rest = long.checked_sub(from)?;
    if rest < count {
        return None;
    }
    Some(from)
}

/// So many bytes from a start on, if the row has them all.
fn in_row<'a>(row: &'a Row<Text>, start: &Tumbler, count: usize) -> Option<&'a [u8]>
    ensures { IfSome result (λ bytes. HasWhole (plain_row plain_text row.now ∷ []) start.now count bytes.now) }
{
    let held = row.leaf.as_slice();
    let from = offset(&row.first, held.len(), start, count)?;
    Some(&held[from..from + count])
}

/// So many bytes from a start on, if the last of so many rows has them all.
fn in_last<'a>(
    rows: &'a [Row<Text>],
    many: usize,
    start: &Tumbler,
    count: usize,
) -> Option<&'a [u8]>
    requires { many ≤ length rows.now }
    ensures { IfSome result (λ bytes. HasWhole (map (plain_row plain_text) rows.now) start.now count bytes.now) }
{
    if many == 0 {
        return None;
    }
    in_row(&rows[many - 1], start, count)
}

/// The last place, or 0 where there is none.
fn last_place(at: &Tumbler) -> u32 {
    match at.places().last() {
        Some(place) => *place,
        None => 0,
    }
}

/// So many bytes from a start on, if one of the rows has them all.
///
/// Where all rows are of one document their last places alone tell which one it is, so that one is looked at first.
fn in_rows<'a>(rows: &'a [Row<Text>], start: &Tumbler, count: usize) -> Option<&'a [u8]>
    ensures { IfSome result (λ bytes. HasWhole (map (plain_row plain_text) rows.now) start.now count bytes.now) }
{
    let last = last_place(start);
    let guess = rows.partition_point(|row| last_place(&row.first) <= last);
    if let Some(bytes) = in_last(rows, guess, start, count) {
        return Some(bytes);
    }
    let many = rows.partition_point(|row| !start.is_before(&row.first));
    in_last(rows, many, start, count)
}

/// So many bytes from a start on, which is seen from the node's origin, if a row below the node has them all.
fn below<'a>(
    arena: &'a Arena<ContentPlane>,
    node: Node,
    start: &Tumbler,
    count: usize,
) -> Option<&'a [u8]>
    requires { node.0 < length arena.now }
    ensures { IfSome result (λ bytes. HasWhole (rows_of arena.now node.0) start.now count bytes.now) }
{
    let _well_formed = arena.allocator();
    match arena.node(node) {
        Children::Bottom(rows) => in_rows(rows.as_slice(), start, count),
        Children::Inner(branches) => {
            let children = branches.as_slice();
            let many = children.partition_point(|child| !start.is_before(&child.first));
            if many == 0 {
                return None;
            }
            let child = &children[many - 1];
            if start.is_before(&child.first) {
                return None;
            }
            below(arena, child.node, &start.minus(&child.first), count)
        }
    }
}

impl Granfilade {
    /// Appends the bytes at so many addresses from a start on, in the order of their addresses.
    ///
    /// Those that one row has are copied from there, whatever else the tree holds. Where memory is refused, `into` may
    /// have some of them behind what it held.
    pub fn bytes_from(&self, start: &Tumbler, count: u32, into: &mut Text) -> Result<(), Memory>
        requires content { IsContent (tree_rows self.now) }
        requires fits { SpanFits (span_from start.now count) }
        ensures ok { OnOk result (into.new.items ≡ into.old.items ++ bytes_in (span_from start.now count) (content self.now)) }
        ensures kept { take (length into.old.items) into.new.items ≡ into.old.items }
    {
        let (arena, root) = self.parts();
        if let Some(bytes) = below(arena, root, start, count as usize) {
            return into.extend_from_slice(bytes);
        }
        let width = Tumbler::width(start.allocator(), start.places().len(), count);
        let span = Span {
            start: start.copy(),
            width,
        };
        self.bytes_of(&span, into)
    }
}
