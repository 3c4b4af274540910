//! Nodes by number, rows, and what hangs under a node.

ghost use Rattle.std.specs.Prelude.{◌≡◌, ◌==◌};

use tumbler::{List, Tumbler};

/// A node of an arena, by its number.
#[derive(Clone, Copy, Debug, PartialEq, Eq)]
pub struct Node(pub(crate) u64);

/// A leaf and where it stands on both axes.
#[derive(Drop)]
pub struct Row<L> {
    pub first: Tumbler,
    pub second: Tumbler,
    pub leaf: L,
}

/// A child that is a node, and where its origin is from the parent's.
///
/// An extent is the greatest end, coordinate plus width, of the child's rows on that axis, from the child's
/// own origin.
#[derive(Clone, Copy)]
pub struct Branch {
    pub node: Node,
    pub first: Tumbler,
    pub second: Tumbler,
    pub first_extent: Tumbler,
    pub second_extent: Tumbler,
}

/// What hangs under a node. All places are displacements from the node's own origin.
#[derive(Drop)]
pub enum Children<L> {
    Bottom(List<Row<L>>),
    Inner(List<Branch>),
}

/// What the owner of one tree keeps to go back: its root, and how many nodes the arena had.
#[derive(Clone, Copy, Debug, PartialEq, Eq)]
pub struct TreeMark {
    pub root: Node,
    pub count: u64,
}

impl Branch {
    /// The same branch.
    pub fn copy(&self) -> Branch
        ensures { result ≡ self.now }
    {
        *self
    }
}

impl<L> Children<L> {
    ghost use Rattle.enfilade_core.specs.Plain.{children_count};

    /// Whether nothing hangs here.
    pub fn is_empty(&self) -> bool
        ensures { result ≡ (children_count self.now == 0) }
    {
        match self {
            Children::Bottom(rows) => rows.is_empty(),
            Children::Inner(branches) => branches.is_empty(),
        }
    }
}
