//! A world goes on with other trees, which stand for what its own do.
ghost use Rattle.std.specs.Prelude.{◌≡◌, length, take, All, IfOk, OnOk, OnErr};
ghost use Rattle.granfilade.specs.Content.{tree_rows};
ghost use Rattle.granfilade.specs.Puts.{IsContent};
ghost use Rattle.poom.specs.Laid.{IsRoot};
ghost use Rattle.doc_table.specs.DocumentRows.{documents_in};
ghost use Rattle.links.specs.LinkLists.{HoldsRuns};
ghost use Rattle.tree_world.specs.OtherTrees.{with_others};
ghost use Rattle.tree_world.specs.Trees.{AreCounted};

use crate::world::TreeWorld;
use doc_table::DocTable;
use enfilade_core::Node;
use febe_data::{List, Memory, Tumbler};
use granfilade::Granfilade;
use poom::Poom;
use spanfilade::Spanfilade;
use std::alloc::Global;

/// Trees that may take the place of a world's own.
#[derive(Drop)]
pub struct OtherTrees {
    pub contents: Granfilade,
    /// The trees of all documents.
    pub pooms: Poom,
    /// The documents' roots among these, in the order of the world's documents.
    pub roots: List<Node>,
    pub index: Spanfilade,
    /// The indexes of the links' three ends.
    pub from: Spanfilade,
    pub to: Spanfilade,
    pub three: Spanfilade,
}

/// A mark of each document.
fn all_marks(alloc: Global, documents: &DocTable<Node>) -> Result<List<Tumbler>, Memory>
    ensures { IfOk result (λ made. made.items ≡ documents_in documents.now) }
{
    let mut made = List::new(alloc);
    for k in 0..documents.len() {
        let Some(document) = documents.nth(k as u32) else {
            unreachable!()
        };
        made.push(document.copy())?;
    }
    Ok(made)
}

impl TreeWorld {
    /// Goes on with other trees in the place of its own. The tables stay as they are but for the documents' roots. Each
    /// document is marked as one whose tree may allow a step of the balancer; the marks take the only memory.
    pub fn go_on_with(&mut self, alloc: Global, other: OtherTrees) -> Result<(), Memory>
        requires contents { IsContent (tree_rows other.contents) }
        requires counted { AreCounted self.old.documents other.contents }
        requires each { length other.roots.items ≡ length self.old.documents }
        requires roots { All (λ (root : Node). IsRoot other.pooms root.0) other.roots.items }
        requires from { HoldsRuns 1 self.old.links.links other.from }
        requires to { HoldsRuns 2 self.old.links.links other.to }
        requires three { HoldsRuns 3 self.old.links.links other.three }
        ensures ok { OnOk result (self.new ≡ with_others other self.new.due self.old) }
        ensures err { OnErr result (self.new ≡ self.old) }
    {
        let due = all_marks(alloc, &self.documents)?;
        let OtherTrees {
            contents,
            pooms,
            roots,
            index,
            from,
            to,
            three,
        } = other;
        self.contents = contents;
        self.pooms = pooms;
        self.documents.set_roots(roots.as_slice());
        self.index = index;
        self.links.set_indexes(from, to, three);
        self.due = due;
        Ok(())
    }
}
