//! How far the trees are from their good shape, how deep they are, and how many nodes there are.
ghost use Rattle.std.specs.Prelude.{◌≡◌, ◌+◌, ◌<◌, min, max, length, All};
ghost use Rattle.enfilade_core.specs.Planes.{content_widths, key_widths};
ghost use Rattle.enfilade_core.specs.BalanceState.{tree_debt};
ghost use Rattle.enfilade_core.specs.Summary.{depth_of, most_count};
ghost use Rattle.tree_world.specs.Condition.{documents_debt, documents_depth, debt_of, depth_in, nodes_of};

use crate::world::TreeWorld;
use doc_table::DocTable;
use enfilade_balance::debt;
use enfilade_core::Node;
use granfilade::Granfilade;
use links::Links;
use poom::Poom;
use spanfilade::Spanfilade;

/// What the documents' trees owe together, up to 2^64 - 1.
fn documents_debt(pooms: &Poom, documents: &DocTable<Node>) -> u64
    requires { All (λ row. row.root.0 < length pooms.now) documents.now }
    ensures { result ≡ min (documents_debt pooms.now documents.now) most_count }
{
    let mut owed: u64 = 0;
    for k in 0..documents.len() {
        let Some(root) = documents.root_at(k) else {
            unreachable!()
        };
        owed = owed.saturating_add(debt(pooms.arena(), root));
    }
    owed
}

/// The depth of the documents' deepest tree, up to 2^32 - 1; 0 where there is no document.
fn documents_depth(pooms: &Poom, documents: &DocTable<Node>) -> u32
    requires { All (λ row. row.root.0 < length pooms.now) documents.now }
    ensures { result ≡ min (documents_depth pooms.now documents.now) 4294967295 }
{
    let mut deepest: u32 = 0;
    for k in 0..documents.len() {
        let Some(root) = documents.root_at(k) else {
            unreachable!()
        };
        deepest = deepest.max(pooms.arena().depth(root));
    }
    deepest
}

/// What the tree of contents owes, up to 2^64 - 1.
fn contents_debt(contents: &Granfilade) -> u64
    ensures { result ≡ min (tree_debt contents.now.nodes contents.now.root) most_count }
{
    let (arena, root) = contents.parts();
    debt(arena, root)
}

/// What the tree of an index owes, up to 2^64 - 1.
fn index_debt(index: &Spanfilade) -> u64
    ensures { result ≡ min (tree_debt index.now.nodes index.now.root.0) most_count }
{
    let (arena, root) = index.parts();
    debt(arena, root)
}

/// What the trees of the three ends' indexes owe together, up to 2^64 - 1.
fn ends_debt(links: &Links) -> u64
    ensures { result ≡ min (tree_debt links.now.from.nodes links.now.from.root.0 + tree_debt links.now.to.nodes links.now.to.root.0 + tree_debt links.now.three.nodes links.now.three.root.0) most_count }
{
    let from = index_debt(links.index(1));
    let to = index_debt(links.index(2));
    let three = index_debt(links.index(3));
    from.saturating_add(to).saturating_add(three)
}

/// The depth of the tree of contents, up to 2^32 - 1.
fn contents_depth(contents: &Granfilade) -> u32
    ensures { result ≡ min (depth_of content_widths contents.now.nodes contents.now.root) 4294967295 }
{
    let (arena, root) = contents.parts();
    arena.depth(root)
}

/// The depth of the tree of an index, up to 2^32 - 1.
fn index_depth(index: &Spanfilade) -> u32
    ensures { result ≡ min (depth_of key_widths index.now.nodes index.now.root.0) 4294967295 }
{
    let (arena, root) = index.parts();
    arena.depth(root)
}

/// The depth of the deepest tree of the three ends' indexes, up to 2^32 - 1.
fn ends_depth(links: &Links) -> u32
    ensures { result ≡ min (max (depth_of key_widths links.now.from.nodes links.now.from.root.0) (max (depth_of key_widths links.now.to.nodes links.now.to.root.0) (depth_of key_widths links.now.three.nodes links.now.three.root.0))) 4294967295 }
{
    let from = index_depth(links.index(1));
    let to = index_depth(links.index(2));
    let three = index_depth(links.index(3));
    from.max(to).max(three)
}

impl TreeWorld {
    /// What all trees owe together, up to 2^64 - 1.
    pub(crate) fn total_debt(&self) -> u64
        ensures { result ≡ min (debt_of self.now) most_count }
    {
        let contents = contents_debt(&self.contents);
        let index = index_debt(&self.index);
        let ends = ends_debt(&self.links);
        let documents = documents_debt(&self.pooms, &self.documents);
        contents
            .saturating_add(index)
            .saturating_add(ends)
            .saturating_add(documents)
    }

    /// The depth of the deepest tree, up to 2^32 - 1.
    pub(crate) fn deepest(&self) -> u32
        ensures { result ≡ min (depth_in self.now) 4294967295 }
    {
        let contents = contents_depth(&self.contents);
        let index = index_depth(&self.index);
        let ends = ends_depth(&self.links);
        let documents = documents_depth(&self.pooms, &self.documents);
        contents.max(index).max(ends).max(documents)
    }

    /// How many nodes the arenas hold, up to 2^64 - 1.
    pub(crate) fn node_count(&self) -> u64
        ensures { result ≡ min (nodes_of self.now) most_count }
    {
        let contents = self.contents.parts().0.count();
        let index = self.index.parts().0.count();
        let from = self.links.index(1).parts().0.count();
        let to = self.links.index(2).parts().0.count();
        let three = self.links.index(3).parts().0.count();
        contents
            .saturating_add(index)
            .saturating_add(from)
            .saturating_add(to)
            .saturating_add(three)
            .saturating_add(self.pooms.arena().count())
    }
}
