//! Whether roots are nodes of their arenas.
ghost use Rattle.std.specs.Prelude.{◌≡◌, ◌↔◌, ℕ, ◌<◌, length, slice_index_or, IsTrue};
ghost use Rattle.page_tables.specs.declared.tables.TableDocument.{TableDocument as TableRow};
ghost use Rattle.page_trees.specs.Trees.{HaveRoots, plain_trees};

use crate::trees::PageTrees;
use page_tables::TableDocument;

/// Whether each document's root is among so many nodes.
fn have_documents(rows: &[TableDocument], count: u64) -> bool
    ensures { IsTrue result ↔ ((k : ℕ) (row : TableRow) → k < length rows.now → row ≡ slice_index_or rows.now k row → row.root < count) }
{
    for row in rows {
        if row.root >= count {
            return false;
        }
    }
    true
}

/// Whether each root is a node of its arena.
pub(crate) fn have_roots(trees: &PageTrees) -> bool
    ensures { IsTrue result ↔ HaveRoots (plain_trees trees.now) }
{
    let tables = &trees.tables;
    if tables.granfilade >= trees.granfilade.count() {
        return false;
    }
    if tables.spanfilade >= trees.spanfilade.count() {
        return false;
    }
    if tables.from >= trees.from.count() {
        return false;
    }
    if tables.to >= trees.to.count() {
        return false;
    }
    if tables.three >= trees.three.count() {
        return false;
    }
    have_documents(tables.documents.as_slice(), trees.poom.count())
}
