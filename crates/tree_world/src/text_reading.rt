//! A document's text goes from its rows into a reply: each row's bytes are copied as it is passed, with no list between.
ghost use Rattle.std.specs.Prelude.{◌≡◌, ◌≢◌, ◌+◌, ◌-◌, ◌<◌, ◌≤◌, ◌++◌, ◌∷◌, [], map, length, take, drop, All, IfOk, OnOk, IfSome, IfNone};
ghost use Rattle.tumbler.specs.Places.{place, sum};
ghost use Rattle.enfilade_core.specs.Rows.{moved, rows_of};
ghost use Rattle.enfilade_core.specs.Axes.{IsWellFormedRow};
ghost use Rattle.enfilade_core.specs.Planes.{text_widths};
ghost use Rattle.enfilade_core.specs.Laws.{rows_from};
ghost use Rattle.enfilade_search.specs.Sought.{FitsAt, ChildFits};
ghost use Rattle.granfilade.specs.Content.{content, tree_rows};
ghost use Rattle.granfilade.specs.Puts.{IsContent};
ghost use Rattle.poom.specs.Pieces.{piece_addresses};
ghost use Rattle.poom.specs.Laid.{IsRoot, texts};
ghost use Rattle.poom.specs.Positions.{IsPieceRow, StandsBetween, clip};
ghost use Rattle.tree_world.specs.inside.Seen.{bytes_found};
ghost use Rattle.tree_world.specs.inside.Wanted.{IsWanted, row_between, bytes_between};

use enfilade_core::{Arena, Branch, Children, Node, Row, TextPlane};
use febe_data::{List, Memory, Text, Tumbler};
use granfilade::Granfilade;
use poom::Poom;
use std::alloc::Global;

/// What of a text is wanted.
#[derive(Drop)]
pub(crate) struct Wanted {
    /// The first position of it, and the first one behind it.
    pub from: u32,
    pub to: u32,
    /// The V-addresses of both.
    pub start: Tumbler,
    pub end: Tumbler,
}

/// The V-address of a position of the text.
fn position(alloc: Global, n: u32) -> Tumbler
    requires { 1 ≤ n }
    ensures { result ≡ 1 ∷ n ∷ [] }
{
    let Ok(place) = Tumbler::from_places(alloc, &[1, n]) else {
        unreachable!();
    };
    place
}

/// The position of a V-address, if it is one of the text.
fn in_text(at: &Tumbler) -> Option<u32>
    requires { length at.now ≡ 2 }
    ensures some { IfSome result (λ n. place at.now 0 ≡ 1) }
    ensures position { IfSome result (λ n. n ≡ place at.now 1) }
    ensures none { IfNone result (place at.now 0 ≢ 1) }
{
    let places = at.places();
    if places[0] != 1 {
        return None;
    }
    Some(places[1])
}

/// Appends what is wanted of so many bytes, the first of which stands at position n and has this address.
fn append_piece(
    contents: &Granfilade,
    n: u32,
    address: &Tumbler,
    count: u32,
    wanted: &Wanted,
    into: &mut Text,
) -> Result<(), Memory>
    requires contents { IsContent (tree_rows contents.now) }
    requires row { StandsBetween 1 wanted.now.from wanted.now.to (record { first = 1 ∷ n ∷ []; second = address.now; leaf = count }) }
    ensures { OnOk result (into.new.items ≡ into.old.items ++ bytes_found (content contents.now) (piece_addresses 1 (clip wanted.now.from wanted.now.to (record { first = 1 ∷ n ∷ []; second = address.now; leaf = count })))) }
{
    let before = wanted.from.saturating_sub(n);
    let many = count.min(wanted.to - n) - before;
    if before == 0 {
        return contents.bytes_from(address, many, into);
    }
    let width = Tumbler::width(address.allocator(), address.places().len(), before);
    contents.bytes_from(&address.add(&width), many, into)
}

/// Appends what is wanted of a row that is seen from a base.
fn append_row(
    contents: &Granfilade,
    row: &Row<u32>,
    first: &Tumbler,
    second: &Tumbler,
    wanted: &Wanted,
    into: &mut Text,
) -> Result<(), Memory>
    requires contents { IsContent (tree_rows contents.now) }
    requires wanted { IsWanted wanted.now }
    requires fits { IsWellFormedRow text_widths (moved first.now second.now row.now) }
    requires piece { IsPieceRow (moved first.now second.now row.now) }
    ensures { OnOk result (into.new.items ≡ into.old.items ++ bytes_found (content contents.now) (row_between wanted.now.from wanted.now.to (moved first.now second.now row.now))) }
{
    let Some(n) = in_text(&first.add(&row.first)) else {
        return Ok(());
    };
    if wanted.to <= n {
        return Ok(());
    }
    if n + row.leaf <= wanted.from {
        return Ok(());
    }
    append_piece(
        contents,
        n,
        &second.add(&row.second),
        row.leaf,
        wanted,
        into,
    )
}

/// Appends what is wanted of rows that are seen from a base.
fn append_rows(
    contents: &Granfilade,
    rows: &[Row<u32>],
    first: &Tumbler,
    second: &Tumbler,
    wanted: &Wanted,
    into: &mut Text,
) -> Result<(), Memory>
    requires contents { IsContent (tree_rows contents.now) }
    requires wanted { IsWanted wanted.now }
    requires fit { All (IsWellFormedRow text_widths) (map (moved first.now second.now) rows.now) }
    requires pieces { All IsPieceRow (map (moved first.now second.now) rows.now) }
    ensures { OnOk result (into.new.items ≡ into.old.items ++ bytes_between (content contents.now) wanted.now.from wanted.now.to (map (moved first.now second.now) rows.now)) }
{
    for row in rows {
        append_row(contents, row, first, second, wanted, into)?;
    }
    Ok(())
}

/// Appends what is wanted of the rows below a node that is seen from a base.
#[cycle(below)]
fn append_node(
    contents: &Granfilade,
    arena: &Arena<TextPlane>,
    node: Node,
    first: &Tumbler,
    second: &Tumbler,
    wanted: &Wanted,
    into: &mut Text,
) -> Result<(), Memory>
    requires contents { IsContent (tree_rows contents.now) }
    requires wanted { IsWanted wanted.now }
    requires fits { FitsAt text_widths arena.now node.0 first.now second.now }
    requires pieces { All IsPieceRow (rows_from arena.now node.0 first.now second.now) }
    ensures { OnOk result (into.new.items ≡ into.old.items ++ bytes_between (content contents.now) wanted.now.from wanted.now.to (rows_from arena.now node.0 first.now second.now)) }
{
    let _alloc = arena.allocator();
    match arena.node(node) {
        Children::Bottom(rows) => append_rows(
            contents,
            rows.as_slice(),
            first,
            second,
            wanted,
            into,
        ),
        Children::Inner(branches) => {
            let children = branches.as_slice();
            for child in children {
                append_child(contents, arena, child, first, second, wanted, into)?;
            }
            Ok(())
        }
    }
}

/// Appends what is wanted of the rows below a child, where the child's node is seen from a base. A child that ends before
/// what is wanted, or begins behind it, is not opened.
#[cycle(below)]
fn append_child(
    contents: &Granfilade,
    arena: &Arena<TextPlane>,
    child: &Branch,
    first: &Tumbler,
    second: &Tumbler,
    wanted: &Wanted,
    into: &mut Text,
) -> Result<(), Memory>
    requires contents { IsContent (tree_rows contents.now) }
    requires wanted { IsWanted wanted.now }
    requires fits { ChildFits text_widths arena.now child.now first.now second.now }
    requires pieces { All IsPieceRow (rows_from arena.now child.now.node.0 (sum first.now child.now.first) (sum second.now child.now.second)) }
    ensures { OnOk result (into.new.items ≡ into.old.items ++ bytes_between (content contents.now) wanted.now.from wanted.now.to (rows_from arena.now child.now.node.0 (sum first.now child.now.first) (sum second.now child.now.second))) }
{
    let _alloc = arena.allocator();
    let first = first.add(&child.first);
    if !first.is_before(&wanted.end) {
        return Ok(());
    }
    if !wanted.start.is_before(&first.add(&child.first_extent)) {
        return Ok(());
    }
    let second = second.add(&child.second);
    append_node(contents, arena, child.node, &first, &second, wanted, into)
}

/// The bytes that a document shows from one position of its text on and before another.
pub(crate) fn text_between(
    alloc: Global,
    contents: &Granfilade,
    pooms: &Poom,
    root: Node,
    from: u32,
    to: u32,
) -> Result<Text, Memory>
    requires contents { IsContent (tree_rows contents.now) }
    requires root { IsRoot pooms.now root.0 }
    requires from_one { 1 ≤ from }
    requires order { from < to }
    ensures { IfOk result (λ text. text.items ≡ bytes_found (content contents.now) (take (to - from) (drop (from - 1) (texts (rows_of pooms.now root.0))))) }
{
    let mut text = List::new(alloc);
    text.reserve((to - from) as usize)?;
    let wanted = Wanted {
        from,
        to,
        start: position(alloc, from),
        end: position(alloc, to),
    };
    let arena = pooms.arena();
    let _well_formed = arena.allocator();
    let zero = Tumbler::zero(alloc);
    append_node(contents, arena, root, &zero, &zero, &wanted, &mut text)?;
    Ok(text)
}
