//! Trees that were read, as their owners hold them.
ghost use Rattle.std.specs.Prelude.{◌≡◌, ◌<◌, length};
ghost use Rattle.enfilade_core.specs.Rows.{Shape as ShapeOf};
ghost use Rattle.page_trees.specs.Trees.{HaveRoots, plain_trees};
ghost use Rattle.green_flush.specs.inside.Owning.{plain_owned, AreRooted, AreOwned};

use crate::trees::Trees;
use enfilade_core::{Arena, Node, Plane};
use febe_data::Text;
use granfilade::Granfilade;
use page_tables::Tables;
use page_trees::PageTrees;
use poom::Poom;
use spanfilade::Spanfilade;

/// Trees that were read, with their tables.
#[derive(Drop)]
pub(crate) struct Owned {
    pub(crate) granfilade: Granfilade,
    pub(crate) poom: Poom,
    pub(crate) spanfilade: Spanfilade,
    pub(crate) from: Spanfilade,
    pub(crate) to: Spanfilade,
    pub(crate) three: Spanfilade,
    pub(crate) tables: Tables,
}

/// The node of a root that is there.
fn root_of<P: Plane>(arena: &Arena<P>, number: u64) -> Node
    requires { number < length arena.now }
    ensures { result.0 ≡ number }
{
    let Some(root) = arena.at_number(number) else {
        unreachable!()
    };
    root
}

impl Owned {
    /// The trees of these arenas at their roots.
    pub(crate) fn of(trees: PageTrees) -> Owned
        requires { HaveRoots (plain_trees trees) }
        ensures nodes { plain_owned result ≡ plain_trees trees }
        ensures rooted { AreRooted result }
    {
        let PageTrees {
            granfilade,
            poom,
            spanfilade,
            from,
            to,
            three,
            tables,
            position: _,
        } = trees;
        let contents_root = root_of(&granfilade, tables.granfilade);
        let index_root = root_of(&spanfilade, tables.spanfilade);
        let from_root = root_of(&from, tables.from);
        let to_root = root_of(&to, tables.to);
        let three_root = root_of(&three, tables.three);
        Owned {
            granfilade: Granfilade::from_parts(granfilade, contents_root),
            poom: Poom::from_arena(poom),
            spanfilade: Spanfilade::from_parts(spanfilade, index_root),
            from: Spanfilade::from_parts(from, from_root),
            to: Spanfilade::from_parts(to, to_root),
            three: Spanfilade::from_parts(three, three_root),
            tables,
        }
    }

    /// The trees, with the bytes of their tables.
    pub(crate) fn with_tables(self, tables: Text) -> Trees
        ensures trees { AreOwned self result }
        ensures tables { result.tables ≡ tables }
    {
        let Owned {
            granfilade,
            poom,
            spanfilade,
            from,
            to,
            three,
            tables: _,
        } = self;
        Trees {
            granfilade,
            poom,
            spanfilade,
            from,
            to,
            three,
            tables,
        }
    }
}
