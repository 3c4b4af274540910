//! A world goes on with trees that were read, where they stand for what it stands for.
ghost use Rattle.std.specs.Prelude.{◌≡◌, ◌↔◌, false, map, IsTrue, IfOk, OnErr};
ghost use Rattle.page_tables.specs.Plain.{PlainTables, plain_tables};
ghost use Rattle.page_tables.specs.TableBytes.{AreTablesOf};
ghost use Rattle.page_trees.specs.Trees.{PlainTrees};
ghost use Rattle.green_flush.specs.Loads.{AreLoaded};
ghost use Rattle.world_rules.specs.FlatView.{FlatView};
ghost use Rattle.tree_world.specs.Nodes.{nodes_in};
ghost use Rattle.tree_world.specs.Condition.{condition_of};
ghost use Rattle.tree_world.specs.Standing.{Stands};
ghost use Rattle.paged_world.specs.Standing.{StandFor, AreIn, HaveNodes};
ghost use Rattle.paged_world.specs.inside.Same.{root_of_row, AreRoots};

use crate::comparing::{holds_same, root_of_row};
use enfilade_core::Node;
use febe_data::{List, Memory};
use green_flush::Trees;
use page_tables::laws::one_tables;
use page_tables::{TableDocument, Tables, read_tables};
use poom::Poom;
use std::alloc::Global;
use tree_world::{OtherTrees, TreeWorld};

/// The tables that stand beside trees which were read.
fn tables_beside(alloc: Global, loaded: &Trees) -> Result<Tables, Memory>
    requires { (tables : PlainTables) × AreTablesOf tables loaded.now.tables.items }
    ensures { IfOk result (λ read. (tables : PlainTables) → AreTablesOf tables loaded.now.tables.items → plain_tables read ≡ tables) }
{
    one_tables();
    let Some(read) = read_tables(alloc, loaded.tables.as_slice())? else {
        unreachable!()
    };
    Ok(read)
}

/// The roots of documents, in their order.
fn read_roots(alloc: Global, pooms: &Poom, rows: &[TableDocument]) -> Result<List<Node>, Memory>
    requires { AreRoots pooms.now rows.now }
    ensures { IfOk result (λ made. made.items ≡ map root_of_row rows.now) }
{
    let mut made = List::new(alloc);
    for row in rows {
        made.push(root_of_row(pooms, row))?;
    }
    Ok(made)
}

/// The trees as those that a world goes on with.
fn other_trees(loaded: Trees, roots: List<Node>) -> OtherTrees
    ensures contents { result.contents ≡ loaded.granfilade }
    ensures pooms { result.pooms ≡ loaded.poom }
    ensures roots { result.roots ≡ roots }
    ensures index { result.index ≡ loaded.spanfilade }
    ensures from { result.from ≡ loaded.from }
    ensures to { result.to ≡ loaded.to }
    ensures three { result.three ≡ loaded.three }
{
    let Trees {
        granfilade,
        poom,
        spanfilade,
        from,
        to,
        three,
        tables: _,
    } = loaded;
    OtherTrees {
        contents: granfilade,
        pooms: poom,
        roots,
        index: spanfilade,
        from,
        to,
        three,
    }
}

/// Goes on with trees that were read, if they hold what the world's own do, and tells whether they do. All memory is taken
/// before anything changes.
pub(crate) fn adopt(world: &mut TreeWorld, alloc: Global, loaded: Trees) -> Result<bool, Memory>
    requires { (plain : PlainTrees) × AreLoaded loaded plain }
    ensures told { (plain : PlainTrees) (view : FlatView) → AreLoaded loaded plain → Stands world.old view → IfOk result (λ adopted. IsTrue adopted ↔ StandFor plain view.world) }
    ensures stands { (view : FlatView) → Stands world.old view → Stands world.new view }
    ensures nodes { (plain : PlainTrees) → AreLoaded loaded plain → IfOk result (λ adopted. IsTrue adopted → HaveNodes plain (nodes_in world.new)) }
    ensures condition { (plain : PlainTrees) → AreLoaded loaded plain → IfOk result (λ adopted. IsTrue adopted → AreIn plain (condition_of world.new)) }
    ensures as_it_was { IfOk result (λ adopted. adopted ≡ false → world.new ≡ world.old) }
    ensures err { OnErr result (world.new ≡ world.old) }
{
    world.trees_are_sound();
    world.documents().in_order();
    world.links().in_order();
    let read = tables_beside(alloc, &loaded)?;
    if !holds_same(world, alloc, &loaded, &read)? {
        return Ok(false);
    }
    let roots = read_roots(alloc, &loaded.poom, read.documents.as_slice())?;
    world.go_on_with(alloc, other_trees(loaded, roots))?;
    Ok(true)
}
