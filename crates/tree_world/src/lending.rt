//! What a world lends of its trees and tables, for those who write them down.
ghost use Rattle.std.specs.Prelude.{◌≡◌};

use crate::world::TreeWorld;
use doc_table::DocTable;
use enfilade_core::Node;
use granfilade::Granfilade;
use links::Links;
use poom::Poom;
use spanfilade::Spanfilade;

impl TreeWorld {
    ghost use Rattle.tree_world.specs.Trees.{AreSound};

    /// The tree of contents.
    pub fn contents(&self) -> &Granfilade
        ensures { result.now ≡ self.now.contents }
    {
        &self.contents
    }

    /// The trees of all documents.
    pub fn pooms(&self) -> &Poom
        ensures { result.now ≡ self.now.nodes }
    {
        &self.pooms
    }

    /// The documents, with their roots.
    pub fn documents(&self) -> &DocTable<Node>
        ensures { result.now ≡ self.now.documents }
    {
        &self.documents
    }

    /// The index of documents by the content that came into them.
    pub fn index(&self) -> &Spanfilade
        ensures { result.now ≡ self.now.index }
    {
        &self.index
    }

    /// The links, with the index of each end.
    pub fn links(&self) -> &Links
        ensures { result.now ≡ self.now.links }
    {
        &self.links
    }

    /// The trees keep to what trees keep to by themselves. It takes no memory.
    pub fn trees_are_sound(&self)
        ensures { AreSound self.now }
    {
        let _ = &self.pooms;
    }
}
