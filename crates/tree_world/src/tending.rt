//! Trees are put into better shape, and nodes that nothing reaches are let go.
ghost use Rattle.std.specs.Prelude.{◌≡◌, ◌+◌, ◌≤◌, min, false, true, IsTrue, IsOk, IfOk, OnOk, OnErr};
ghost use Rattle.enfilade_core.specs.Summary.{most_count};
ghost use Rattle.febe_data.specs.Plain.{plain_entry};
ghost use Rattle.world_rules.specs.FlatView.{FlatView, after_entry};
ghost use Rattle.world_rules.specs.History.{is_durable};
ghost use Rattle.world_rules.specs.InPlace.{DropsOnly, HasRoom};
ghost use Rattle.tree_world.specs.Condition.{Condition, StaysInShape};
ghost use Rattle.tree_world.specs.Nodes.{WorldNodes, AllGrown};

use crate::world::TreeWorld;
use febe_data::{Entry, Memory};
use std::alloc::Global;
use world_rules::Apply;

/// A world of trees, which can be put into better shape while it stands for the same.
pub trait Rebalance: Apply {
    /// What contracts see of the trees, beside what they stand for.
    ghost condition: { Self → Condition };

    /// The nodes of the trees' arenas.
    ghost world_nodes: { Self → WorldNodes };

    /// What all trees owe for their shape together, up to 2^64 - 1. It looks at one node of each document's tree.
    fn debt(&self) -> u64
        ensures { result ≡ min (condition self.now).debt most_count };

    /// Whether some tree allows a step of the balancer. It takes no memory, and looks only at the trees of documents that
    /// are marked as ones that may.
    fn can_balance(&self) -> bool
        ensures { result ≡ (condition self.now).allows };

    /// The depth of the deepest tree, up to 2^32 - 1. It looks at one node of each document's tree.
    fn depth(&self) -> u32
        ensures { result ≡ min (condition self.now).depth 4294967295 };

    /// How many nodes the arenas hold, up to 2^64 - 1.
    fn nodes(&self) -> u64
        ensures { result ≡ (condition self.now).nodes };

    /// Changes the world by an entry that the limits do not count, as `apply` does. The trees stay as they are, also
    /// where it is refused, down to the last node.
    fn apply_beside(&mut self, alloc: Global, entry: &Entry) -> Result<(), Memory>
        requires { is_durable (plain_entry entry.now).change ≡ false }
        ensures ok { (view : FlatView) → Self.stands self.old view → OnOk result (Self.stands self.new (after_entry view (plain_entry entry.now))) }
        ensures err { (view : FlatView) → Self.stands self.old view → OnErr result (Self.stands self.new view) }
        ensures in_place { (view : FlatView) → Self.stands self.old view → DropsOnly entry.now.change → HasRoom view.sessions entry.now.session → IsOk result }
        ensures condition { condition self.new ≡ condition self.old }
        ensures nodes { world_nodes self.new ≡ world_nodes self.old };

    /// Changes the world by an entry of a history that is told again, as `apply` does. Nodes only come in behind those that
    /// are there. Where it is refused the trees are in the condition that they were in, with the very nodes that they had.
    fn replay(&mut self, alloc: Global, entry: &Entry) -> Result<(), Memory>
        ensures ok { (view : FlatView) → Self.stands self.old view → OnOk result (Self.stands self.new (after_entry view (plain_entry entry.now))) }
        ensures err { (view : FlatView) → Self.stands self.old view → OnErr result (Self.stands self.new view) }
        ensures in_place { (view : FlatView) → Self.stands self.old view → DropsOnly entry.now.change → HasRoom view.sessions entry.now.session → IsOk result }
        ensures stays { OnErr result (condition self.new ≡ condition self.old) }
        ensures grown { OnOk result (AllGrown (world_nodes self.old) (world_nodes self.new)) }
        ensures same_nodes { OnErr result (world_nodes self.new ≡ world_nodes self.old) };

    /// Makes one step of the balancer in some tree that allows one, and tells whether one did. The world stands for what
    /// it stood for, whatever comes of it. Where no tree allows a step it takes no memory. It walks over no documents but
    /// those that are marked, and each mark is dropped once. Nodes only come in behind those that are there, and none where
    /// no step was made.
    fn balance(&mut self) -> Result<bool, Memory>
        ensures stands { (view : FlatView) → Self.stands self.old view → Self.stands self.new view }
        ensures told { IfOk result (λ made. made ≡ (condition self.old).allows) }
        ensures lowers { OnOk result ((condition self.old).allows ≡ true → (condition self.new).debt + 1 ≤ (condition self.old).debt) }
        ensures idle { (condition self.old).allows ≡ false → IsOk result × (condition self.new ≡ condition self.old) }
        ensures err { OnErr result (condition self.new ≡ condition self.old) }
        ensures grown { AllGrown (world_nodes self.old) (world_nodes self.new) }
        ensures idle_nodes { (condition self.old).allows ≡ false → world_nodes self.new ≡ world_nodes self.old }
        ensures err_nodes { OnErr result (world_nodes self.new ≡ world_nodes self.old) };

    /// Lets go of all nodes that no tree's root reaches. The world stands for what it stood for, whatever comes of it, and
    /// the trees stay as deep and as near to balance.
    fn sweep(&mut self, alloc: Global) -> Result<(), Memory>
        ensures stands { (view : FlatView) → Self.stands self.old view → Self.stands self.new view }
        ensures count { OnOk result ((condition self.new).nodes ≡ (condition self.old).reached) }
        ensures none_left { OnOk result ((condition self.new).unreached ≡ 0) }
        ensures shape { OnOk result (StaysInShape (condition self.old) (condition self.new)) }
        ensures err { OnErr result (condition self.new ≡ condition self.old) }
        ensures err_nodes { OnErr result (world_nodes self.new ≡ world_nodes self.old) };
}

impl Rebalance for TreeWorld {
    ghost use Rattle.tree_world.specs.Condition.{condition_of};
    ghost use Rattle.tree_world.specs.Nodes.{nodes_in};

    ghost condition = { condition_of };

    ghost world_nodes = { nodes_in };

    fn debt(&self) -> u64 {
        self.total_debt()
    }

    fn can_balance(&self) -> bool {
        self.may_balance()
    }

    fn depth(&self) -> u32 {
        self.deepest()
    }

    fn nodes(&self) -> u64 {
        self.node_count()
    }

    fn apply_beside(&mut self, alloc: Global, entry: &Entry) -> Result<(), Memory> {
        self.apply_beside_trees(alloc, entry)
    }

    fn replay(&mut self, alloc: Global, entry: &Entry) -> Result<(), Memory> {
        self.apply_entry(alloc, entry)
    }

    fn balance(&mut self) -> Result<bool, Memory> {
        self.balance_trees()
    }

    fn sweep(&mut self, alloc: Global) -> Result<(), Memory> {
        self.sweep_trees(alloc)
    }
}
