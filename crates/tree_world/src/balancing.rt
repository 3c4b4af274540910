//! Steps of the balancer, in one tree of the world after the other.
ghost use Rattle.std.specs.Prelude.{◌≡◌, ◌⊎◌, ◌+◌, ◌≤◌, false, not, IsOk, IsTrue, IfOk, OnErr};
ghost use Rattle.enfilade_core.specs.BalanceState.{tree_allows};
ghost use Rattle.enfilade_balance.specs.Steps.{root_after, is_idle};
ghost use Rattle.links.specs.LinkLists.{index_at};
ghost use Rattle.world_rules.specs.FlatView.{FlatView};
ghost use Rattle.tree_world.specs.Condition.{debt_of, allows_of, documents_allow, condition_of};
ghost use Rattle.tree_world.specs.Nodes.{nodes_in, AllGrown};
ghost use Rattle.tree_world.specs.Standing.{Stands};
ghost use Rattle.tree_world.specs.inside.SameRows.{SameRows};

use crate::marking::{due_tree, some_due};
use crate::world::TreeWorld;
use enfilade_balance::laws::debts_stay;
use enfilade_balance::{Balance, allows};
use enfilade_core::Node;
use febe_data::Memory;

/// Whether a step was made.
fn is_made(made: Balance) -> bool
    ensures { result ≡ not (is_idle made) }
{
    !matches!(made, Balance::Idle)
}

/// The root of a tree after a step.
fn root_after(root: Node, made: Balance) -> Node
    ensures { result ≡ root_after root made }
{
    match made {
        Balance::Split(made) | Balance::Merged(made) | Balance::Dropped(made) => made,
        Balance::Idle => root,
    }
}

impl TreeWorld {
    /// Whether some tree allows a step.
    pub(crate) fn may_balance(&self) -> bool
        ensures { result ≡ allows_of self.now }
    {
        let (contents, root) = self.contents.parts();
        if allows(contents, root) {
            return true;
        }
        let (index, root) = self.index.parts();
        if allows(index, root) {
            return true;
        }
        let (from, root) = self.links.index(1).parts();
        if allows(from, root) {
            return true;
        }
        let (to, root) = self.links.index(2).parts();
        if allows(to, root) {
            return true;
        }
        let (three, root) = self.links.index(3).parts();
        if allows(three, root) {
            return true;
        }
        some_due(&self.pooms, &self.documents, self.due.as_slice())
    }

    /// One step in the tree of contents, where it allows one.
    fn balance_contents(&mut self) -> Result<bool, Memory>
        ensures same { SameRows self.old self.new }
        ensures told { IfOk result (λ made. made ≡ tree_allows self.old.contents.nodes self.old.contents.root) }
        ensures lowers { IfOk result (λ made. IsTrue made → debt_of self.new + 1 ≤ debt_of self.old) }
        ensures idle { tree_allows self.old.contents.nodes self.old.contents.root ≡ false → IsOk result × (self.new ≡ self.old) }
        ensures err { OnErr result (self.new ≡ self.old) }
        ensures grown { AllGrown (nodes_in self.old) (nodes_in self.new) }
    {
        let made = self.contents.balance()?;
        Ok(is_made(made))
    }

    /// One step in the index of documents, where it allows one.
    fn balance_index(&mut self) -> Result<bool, Memory>
        ensures same { SameRows self.old self.new }
        ensures told { IfOk result (λ made. made ≡ tree_allows self.old.index.nodes self.old.index.root.0) }
        ensures lowers { IfOk result (λ made. IsTrue made → debt_of self.new + 1 ≤ debt_of self.old) }
        ensures idle { tree_allows self.old.index.nodes self.old.index.root.0 ≡ false → IsOk result × (self.new ≡ self.old) }
        ensures err { OnErr result (self.new ≡ self.old) }
        ensures grown { AllGrown (nodes_in self.old) (nodes_in self.new) }
    {
        let made = self.index.balance()?;
        Ok(is_made(made))
    }

    /// One step in the index of an end of links, where it allows one.
    fn balance_end(&mut self, end: u32) -> Result<bool, Memory>
        requires end { (end ≡ 1) ⊎ (end ≡ 2) ⊎ (end ≡ 3) }
        ensures same { SameRows self.old self.new }
        ensures told { IfOk result (λ made. made ≡ tree_allows (index_at end self.old.links).nodes (index_at end self.old.links).root.0) }
        ensures lowers { IfOk result (λ made. IsTrue made → debt_of self.new + 1 ≤ debt_of self.old) }
        ensures idle { tree_allows (index_at end self.old.links).nodes (index_at end self.old.links).root.0 ≡ false → IsOk result × (self.new ≡ self.old) }
        ensures err { OnErr result (self.new ≡ self.old) }
        ensures grown { AllGrown (nodes_in self.old) (nodes_in self.new) }
    {
        let made = self.links.balance(end)?;
        Ok(is_made(made))
    }

    /// One step in the tree of a document, where some document's allows one. Marks of documents whose trees allow none may
    /// go, whatever comes of it.
    fn balance_documents(&mut self) -> Result<bool, Memory>
        ensures same { SameRows self.old self.new }
        ensures told { IfOk result (λ made. made ≡ documents_allow self.old.nodes self.old.documents) }
        ensures lowers { IfOk result (λ made. IsTrue made → debt_of self.new + 1 ≤ debt_of self.old) }
        ensures idle { documents_allow self.old.nodes self.old.documents ≡ false → IsOk result × (condition_of self.new ≡ condition_of self.old) }
        ensures idle_nodes { documents_allow self.old.nodes self.old.documents ≡ false → nodes_in self.new ≡ nodes_in self.old }
        ensures err { OnErr result (condition_of self.new ≡ condition_of self.old) }
        ensures grown { AllGrown (nodes_in self.old) (nodes_in self.new) }
        ensures err_nodes { OnErr result (nodes_in self.new ≡ nodes_in self.old) }
    {
        self.documents.in_order();
        debts_stay(self.pooms.arena());
        let Some(due) = due_tree(&self.pooms, &self.documents, &mut self.due) else {
            return Ok(false);
        };
        let (document, root) = due;
        let made = self.pooms.balance(root)?;
        self.documents.set_root(&document, root_after(root, made));
        Ok(true)
    }

    /// One step in the first tree that allows one.
    pub(crate) fn balance_trees(&mut self) -> Result<bool, Memory>
        ensures stands { (view : FlatView) → Stands self.old view → Stands self.new view }
        ensures told { IfOk result (λ made. made ≡ allows_of self.old) }
        ensures lowers { IfOk result (λ made. IsTrue made → debt_of self.new + 1 ≤ debt_of self.old) }
        ensures idle { allows_of self.old ≡ false → IsOk result × (condition_of self.new ≡ condition_of self.old) }
        ensures idle_nodes { allows_of self.old ≡ false → nodes_in self.new ≡ nodes_in self.old }
        ensures err { OnErr result (condition_of self.new ≡ condition_of self.old) }
        ensures grown { AllGrown (nodes_in self.old) (nodes_in self.new) }
        ensures err_nodes { OnErr result (nodes_in self.new ≡ nodes_in self.old) }
    {
        if self.balance_contents()? {
            return Ok(true);
        }
        if self.balance_index()? {
            return Ok(true);
        }
        if self.balance_end(1)? {
            return Ok(true);
        }
        if self.balance_end(2)? {
            return Ok(true);
        }
        if self.balance_end(3)? {
            return Ok(true);
        }
        self.balance_documents()
    }
}
