//! The world as a value: its trees, its tables, and its numbers.
ghost use Rattle.std.specs.Prelude.{◌≡◌, [], IfOk};
ghost use Rattle.world_rules.specs.FlatView.{nothing_yet};
ghost use Rattle.tree_world.specs.Standing.{Stands};

use crate::counts::Counts;
use access_table::AccessTable;
use doc_table::DocTable;
use enfilade_core::Node;
use febe_data::{List, Memory, Tumbler};
use granfilade::Granfilade;
use links::Links;
use poom::Poom;
use spanfilade::Spanfilade;
use std::alloc::Global;
use std::marker::Model;

/// The world of a history in trees and tables.
///
/// Documents are trees over addresses of content, the bytes stand once in a tree of their own, and tables tell which
/// documents there are, who has what open, and which links. It stands for every view whose lists hold the same: in whatever
/// order, but for the rows of one document's text, and of its links, which stand in V order.
pub struct TreeWorld {
    pub(crate) contents: Granfilade,
    /// How many bytes there are.
    pub(crate) content: usize,
    pub(crate) pooms: Poom,
    pub(crate) documents: DocTable<Node>,
    /// The documents by the content that came into them. What went out of them may stand there still.
    pub(crate) index: Spanfilade,
    pub(crate) links: Links,
    pub(crate) access: AccessTable,
    pub(crate) counted: u64,
    pub(crate) sessions: Counts,
    /// Documents whose trees may allow a step of the balancer, each whose tree does among them.
    pub(crate) due: List<Tumbler>,
    pub(crate) alloc: Global,
}

impl Drop for TreeWorld {
    fn drop(self) {
        let TreeWorld {
            contents: _,
            content: _,
            pooms: _,
            documents: _,
            index: _,
            links: _,
            access: _,
            counted: _,
            sessions: _,
            due: _,
            alloc: _,
        } = self;
    }
}

impl Model for TreeWorld {
    ghost use Rattle.std.specs.Prelude.{All};
    ghost use Rattle.tumbler.specs.Address.{IsDocument};
    ghost use Rattle.granfilade.specs.Content.{tree_rows};
    ghost use Rattle.granfilade.specs.Puts.{IsContent};
    ghost use Rattle.poom.specs.Laid.{IsRoot};
    ghost use Rattle.tree_world.specs.Trees.{Trees, AreCounted, AreDue};

    ghost Value = { Trees };

    ghost view = { λ w. record { contents = w.contents; content = w.content; nodes = w.pooms; documents = w.documents; index = w.index; links = w.links; access = w.access; counted = w.counted; sessions = w.sessions; due = w.due.items } };

    ghost invariant = { λ w. All (λ row. IsRoot w.pooms row.root.0) w.documents × All (λ row. IsDocument row.document) w.documents × IsContent (tree_rows w.contents) × AreCounted w.documents w.contents × AreDue w.pooms w.documents w.due.items };
}

impl TreeWorld {
    /// The world before any entry.
    pub fn new(alloc: Global) -> Result<TreeWorld, Memory>
        ensures { IfOk result (λ made. Stands made nothing_yet) }
    {
        let contents = Granfilade::new(alloc)?;
        let links = Links::new(alloc)?;
        let index = Spanfilade::new(alloc)?;
        let _from = links.index(1);
        let _to = links.index(2);
        let _three = links.index(3);
        Ok(TreeWorld {
            contents,
            content: 0,
            pooms: Poom::new(alloc),
            documents: DocTable::new(alloc),
            index,
            links,
            access: AccessTable::new(alloc),
            counted: 0,
            sessions: Counts::new(alloc),
            due: List::new(alloc),
            alloc,
        })
    }
}
