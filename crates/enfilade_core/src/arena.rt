//! Arenas: nodes that never change, the later ones made of earlier ones.
ghost use Rattle.std.specs.Prelude.{◌≡◌, ◌≢◌, ℕ, ◌+◌, ◌^◌, ◌<◌, ◌≤◌, ◌↔◌, min, List as ListOf, [], ◌∷◌, ◌++◌, length, take, map, All, IsTrue, IfOk, IfSome, IfNone, OnOk, OnErr};
ghost use Rattle.enfilade_core.specs.Rows.{Shape, Rows, rows_of, node_at, IsBottom};
ghost use Rattle.enfilade_core.specs.WellFormed.{IsWellFormed, AreWellFormed};
ghost use Rattle.enfilade_core.specs.Plain.{shape, plain_row};
ghost use Rattle.enfilade_core.specs.Summary.{summary_of, kept};
ghost use Rattle.enfilade_core.specs.BalanceState.{balance_state_of, kept_balance_state};
ghost use Rattle.enfilade_core.specs.Edits.{KeepsRows};
ghost use Rattle.enfilade_core.specs.NewNumbers.{IsClosed, AreRanks, AreAtRanks};

use crate::balance_state::BalanceState;
use crate::exchange::append_copies;
use crate::keep_nodes::keep_nodes;
use crate::laws::nodes_are_few;
use crate::plane::Plane;
use crate::stored_node::StoredNode;
use crate::summary::Summary;
use crate::tree::{Children, Node};
use std::alloc::Global;
use std::marker::{Model, PhantomData};
use tumbler::{List, Memory};

/// Nodes that never change, with the trees of one plane.
///
/// New nodes come in at the end. Those under a node have lesser numbers, all bottom nodes of a tree are
/// equally deep, and trees may share nodes. A tree is named by its root, whose origin is zero.
#[derive(Drop)]
pub struct Arena<P: Plane> {
    nodes: List<StoredNode<P::Leaf>>,
    alloc: Global,
    plane: PhantomData<P>,
}

impl<P: Plane> Model for Arena<P> {
    ghost use Rattle.std.specs.Prelude.{List as ListOf};
    ghost use Rattle.enfilade_core.specs.Rows.{Shape};
    ghost use Rattle.enfilade_core.specs.StoredNode.{held_shapes, IsArena};

    ghost Value = { ListOf (Shape P.Leaf) };

    ghost view = { λ a. held_shapes P.plain a.nodes.items };

    ghost invariant = { λ a. IsArena P.plain P.widths a.nodes.items };
}

impl<P: Plane> Arena<P> {
    /// An arena with no node. It takes no memory.
    pub fn new(alloc: Global) -> Arena<P>
        ensures { result ≡ [] }
    {
        Arena {
            nodes: List::new(alloc),
            alloc,
            plane: PhantomData,
        }
    }

    /// The number of nodes. It takes no memory.
    pub fn count(&self) -> u64
        ensures { result ≡ length self.now }
    {
        self.nodes.len() as u64
    }

    /// What `truncate` goes back to: the number of nodes. It takes no memory.
    pub fn mark(&self) -> u64
        ensures { result ≡ length self.now }
    {
        self.count()
    }

    /// Drops the nodes from the mark on, and leaves the earlier ones. It takes no memory.
    pub fn truncate(&mut self, mark: u64)
        requires { mark ≤ length self.old }
        ensures { self.new ≡ take mark self.old }
    {
        self.nodes.truncate(mark as usize);
    }

    /// Keeps the marked nodes, in their order, and drops the others. What hangs under a node has its new number then: how
    /// many marked nodes are before it. The nodes are moved with what is kept of them, and it takes no memory.
    pub fn keep_marked(&mut self, marks: &[bool], ranks: &[u64])
        requires long { length marks.now ≡ length self.old }
        requires closed { IsClosed self.old marks.now }
        requires ranks { AreRanks marks.now ranks.now }
        ensures { AreAtRanks marks.now self.old self.new (length self.old) }
    {
        keep_nodes::<P>(&mut self.nodes, marks, ranks);
    }

    /// Makes room for so many more nodes, so that adding them moves none.
    pub fn reserve(&mut self, nodes: u64) -> Result<(), Memory>
        ensures { self.new ≡ self.old }
    {
        self.nodes.reserve(nodes as usize)
    }

    /// What hangs under a node. It takes no memory.
    pub fn node(&self, node: Node) -> &Children<P::Leaf>
        requires { node.0 < length self.now }
        ensures { shape P.plain result.now ≡ node_at self.now node.0 }
    {
        &self.nodes.as_slice()[node.0 as usize].children
    }

    /// A node's number.
    pub fn number(node: Node) -> u64
        ensures { result ≡ node.0 }
    {
        node.0
    }

    /// The node of this number, if there is one. It takes no memory.
    pub fn at_number(&self, number: u64) -> Option<Node>
        ensures found { IfSome result (λ node. (node.0 ≡ number) × (number < length self.now)) }
        ensures none { IfNone result (length self.now ≤ number) }
    {
        if number < self.count() {
            return Some(Node(number));
        }
        None
    }

    /// Where memory comes from.
    pub fn allocator(&self) -> Global
        ensures well_formed { AreWellFormed P.widths self.now }
        ensures few { length self.now < 2 ^ 64 }
    {
        nodes_are_few(self);
        self.alloc
    }

    /// What is kept of the rows below a node.
    pub(crate) fn summary(&self, node: Node) -> &Summary
        requires { node.0 < length self.now }
        ensures told { result.now ≡ kept (summary_of P.widths self.now node.0) }
        ensures well_formed { AreWellFormed P.widths self.now }
        ensures few { length self.now < 2 ^ 64 }
    {
        nodes_are_few(self);
        &self.nodes.as_slice()[node.0 as usize].summary
    }

    /// What is kept of the shape of the tree below a node. It takes no memory.
    pub fn balance_state(&self, node: Node) -> BalanceState
        requires { node.0 < length self.now }
        ensures { result ≡ kept_balance_state (balance_state_of self.now node.0) }
    {
        self.nodes.as_slice()[node.0 as usize].balance_state
    }

    /// Adds a node with these children, which is the last one then.
    pub fn add_node(&mut self, children: Children<P::Leaf>) -> Result<Node, Memory>
        requires { IsWellFormed P.widths self.old (shape P.plain children) }
        ensures made { IfOk result (λ node. node.0 ≡ length self.old) }
        ensures ok { OnOk result (self.new ≡ self.old ++ shape P.plain children ∷ []) }
        ensures err { OnErr result (self.new ≡ self.old) }
    {
        let summary = self.children_told(&children);
        let balance_state = self.children_balance_state(&children);
        let node = Node(self.count());
        self.nodes.push(StoredNode {
            children,
            summary,
            balance_state,
        })?;
        Ok(node)
    }

    /// Adds a copy of a bottom node of another arena, which is the last one then. What is kept beside the rows is
    /// copied with them, and not worked out again.
    pub fn add_copy(&mut self, other: &Arena<P>, node: Node) -> Result<Node, Memory>
        requires below { node.0 < length other.now }
        requires bottom { IsBottom (node_at other.now node.0) }
        ensures made { IfOk result (λ made. made.0 ≡ length self.old) }
        ensures ok { OnOk result (self.new ≡ self.old ++ node_at other.now node.0 ∷ []) }
        ensures err { OnErr result (self.new ≡ self.old) }
    {
        let held = other.rows_under(node);
        let mut rows = List::new(self.alloc);
        rows.reserve(held.len())?;
        append_copies::<P>(self.alloc, held, &mut rows)?;
        let made = Node(self.count());
        self.nodes.push(StoredNode {
            children: Children::Bottom(rows),
            summary: other.summary(node).copy(),
            balance_state: other.balance_state(node),
        })?;
        Ok(made)
    }

    /// A new root with no rows.
    pub fn empty(&mut self) -> Result<Node, Memory>
        ensures made { IfOk result (λ root. root.0 ≡ length self.old) }
        ensures ok { OnOk result (self.new ≡ self.old ++ Rows [] ∷ []) }
        ensures err { OnErr result (self.new ≡ self.old) }
    {
        self.add_node(Children::Bottom(List::new(self.alloc)))
    }
}
