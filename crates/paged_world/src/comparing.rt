//! Whether trees that were read hold what a world's do.
ghost use Rattle.std.specs.Prelude.{◌≡◌, ◌↔◌, map, length, IsTrue, IfOk};
ghost use Rattle.poom.specs.Laid.{IsRoot};
ghost use Rattle.page_tables.specs.Plain.{plain_link, plain_tables};
ghost use Rattle.paged_world.specs.inside.Same.{root_of_row, without_root, AreRoots, ShowAllSame, HoldSame};

use crate::tables::tables_of;
use enfilade_core::Node;
use febe_data::{Memory, Run};
use green_flush::Trees;
use page_tables::{TableDocument, TableLink, Tables};
use poom::Poom;
use std::alloc::Global;
use tree_compare::{same_bytes, same_text};
use tree_world::TreeWorld;

fn same_row(one: &TableDocument, other: &TableDocument) -> bool
    ensures { IsTrue result ↔ without_root one.now ≡ without_root other.now }
{
    one.document == other.document && one.content == other.content
}

/// Whether these are the same documents, with as many bytes of content each.
fn same_documents(one: &[TableDocument], other: &[TableDocument]) -> bool
    ensures { IsTrue result ↔ map without_root one.now ≡ map without_root other.now }
{
    if one.len() != other.len() {
        return false;
    }
    for k in 0..one.len() {
        if !same_row(&one[k], &other[k]) {
            return false;
        }
    }
    true
}

fn same_run(one: &Run, other: &Run) -> bool
    ensures { IsTrue result ↔ one.now ≡ other.now }
{
    one.origin == other.origin
        && one.content == other.content
        && one.first == other.first
        && one.length == other.length
}

fn same_runs(one: &[Run], other: &[Run]) -> bool
    ensures { IsTrue result ↔ one.now ≡ other.now }
{
    if one.len() != other.len() {
        return false;
    }
    for k in 0..one.len() {
        if !same_run(&one[k], &other[k]) {
            return false;
        }
    }
    true
}

fn same_link(one: &TableLink, other: &TableLink) -> bool
    ensures { IsTrue result ↔ plain_link one.now ≡ plain_link other.now }
{
    one.id == other.id
        && one.home == other.home
        && same_runs(one.from.as_slice(), other.from.as_slice())
        && same_runs(one.to.as_slice(), other.to.as_slice())
        && same_runs(one.three.as_slice(), other.three.as_slice())
}

/// Whether these are the same links.
fn same_links(one: &[TableLink], other: &[TableLink]) -> bool
    ensures { IsTrue result ↔ map plain_link one.now ≡ map plain_link other.now }
{
    if one.len() != other.len() {
        return false;
    }
    for k in 0..one.len() {
        if !same_link(&one[k], &other[k]) {
            return false;
        }
    }
    true
}

/// The document's root in the arena.
pub(crate) fn root_of_row(pooms: &Poom, row: &TableDocument) -> Node
    requires { IsRoot pooms.now row.now.root }
    ensures { result ≡ root_of_row row.now }
{
    let Some(root) = pooms.arena().at_number(row.root) else {
        unreachable!()
    };
    root
}

/// Whether documents show the same text and the same links as others at their places.
fn same_texts(
    pooms: &Poom,
    rows: &[TableDocument],
    others: &Poom,
    read: &[TableDocument],
) -> Result<bool, Memory>
    requires one { AreRoots pooms.now rows.now }
    requires other { AreRoots others.now read.now }
    requires long { length rows.now ≡ length read.now }
    ensures { IfOk result (λ same. IsTrue same ↔ ShowAllSame pooms.now rows.now others.now read.now) }
{
    for k in 0..rows.len() {
        let root = root_of_row(pooms, &rows[k]);
        let other = root_of_row(others, &read[k]);
        if !same_text(pooms.arena(), root, others.arena(), other)? {
            return Ok(false);
        }
    }
    Ok(true)
}

/// Whether the trees and the tables beside them hold what the world's do. The time goes by the rows and the bytes of both.
pub(crate) fn holds_same(
    world: &TreeWorld,
    alloc: Global,
    loaded: &Trees,
    read: &Tables,
) -> Result<bool, Memory>
    requires { AreRoots loaded.now.poom read.now.documents.items }
    ensures { IfOk result (λ same. IsTrue same ↔ HoldSame world.now loaded.now.granfilade loaded.now.poom (plain_tables read.now)) }
{
    world.trees_are_sound();
    let own = tables_of(world, alloc)?;
    let rows = own.documents.as_slice();
    let others = read.documents.as_slice();
    if !same_documents(rows, others) {
        return Ok(false);
    }
    if !same_links(own.links.as_slice(), read.links.as_slice()) {
        return Ok(false);
    }
    if !same_bytes(world.contents(), &loaded.granfilade)? {
        return Ok(false);
    }
    same_texts(world.pooms(), rows, &loaded.poom, others)
}
