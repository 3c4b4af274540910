//! The trees of all documents.
ghost use Rattle.std.specs.Prelude.{◌≡◌, ◌+◌, ◌<◌, ◌≤◌, ◌++◌, [], ◌∷◌, length, map, take, not, false, IsOk, IfOk, OnOk, OnErr};
ghost use Rattle.enfilade_core.specs.Rows.{Rows, rows_of, node_at};
ghost use Rattle.enfilade_core.specs.Edits.{KeepsRows};
ghost use Rattle.enfilade_core.specs.Exchange.{Grows};
ghost use Rattle.enfilade_core.specs.BalanceState.{tree_debt, tree_allows, has_lone_child};
ghost use Rattle.enfilade_core.specs.Planes.{text_widths};
ghost use Rattle.enfilade_balance.specs.OneStep.{IsOneStep};
ghost use Rattle.enfilade_balance.specs.Steps.{root_after, is_idle, is_dropped};
ghost use Rattle.enfilade_core.specs.Summary.{depth_of};
ghost use Rattle.enfilade_sweep.specs.Sweep.{numbers, IsSwept, reached_count, unreached_count};
ghost use Rattle.enfilade_sweep.specs.Plan.{IsPlanFor};
ghost use Rattle.poom.specs.declared.part.Part.TheVariants.{Text, Links};
ghost use Rattle.poom.specs.Laid.{IsRoot, texts, links};

use enfilade_balance::{Balance, balance_step};
use enfilade_core::{Arena, Node, TextPlane};
use enfilade_sweep::{SweepPlan, finish_sweep};
use std::alloc::Global;
use std::marker::Model;
use tumbler::{List, Memory};

/// The trees of documents. A document is a root, and documents may share nodes.
///
/// A tree holds what stands at a document's V-addresses: text at `1.1` and on, links at `2.1` and on. A row
/// of it stands for a piece of content.
#[derive(Drop)]
pub struct Poom {
    pub(crate) arena: Arena<TextPlane>,
    pub(crate) alloc: Global,
}

impl Model for Poom {
    ghost use Rattle.std.specs.Prelude.{ℕ, List};
    ghost use Rattle.enfilade_core.specs.Rows.{Shape};

    ghost Value = { List (Shape ℕ) };

    ghost view = { λ p. p.arena };
}

impl Poom {
    /// Trees of no documents. It takes no memory.
    pub fn new(alloc: Global) -> Poom
        ensures { result ≡ [] }
    {
        Poom {
            arena: Arena::new(alloc),
            alloc,
        }
    }

    /// The trees of an arena. It takes no memory.
    pub fn from_arena(arena: Arena<TextPlane>) -> Poom
        ensures { result ≡ arena }
    {
        let alloc = arena.allocator();
        Poom { arena, alloc }
    }

    /// A new document of no text and no links.
    #[tactic(auto, using(crate::proofs::Roots::roots))]
    pub fn empty(&mut self) -> Result<Node, Memory>
        ensures kept { KeepsRows self.old self.new }
        ensures grows { Grows self.old self.new }
        ensures document { IfOk result (λ root. IsRoot self.new root.0) }
        ensures nothing { IfOk result (λ root. rows_of self.new root.0 ≡ []) }
        ensures err { OnErr result (self.new ≡ self.old) }
    {
        let root = self.arena.empty()?;
        Ok(root)
    }

    /// Makes one step of the balancer in a document's tree, if one is allowed.
    ///
    /// The root after it is the document's with the same rows. Other documents keep their trees. Where memory is refused
    /// all is as before. Where no step is allowed it takes no memory.
    pub fn balance(&mut self, root: Node) -> Result<Balance, Memory>
        requires { root.0 < length self.old }
        ensures kept { KeepsRows self.old self.new }
        ensures grows { Grows self.old self.new }
        ensures below { IfOk result (λ made. (root_after root made).0 < length self.new) }
        ensures rows { IfOk result (λ made. rows_of self.new (root_after root made).0 ≡ rows_of self.old root.0) }
        ensures document { IsRoot self.old root.0 → IfOk result (λ made. IsRoot self.new (root_after root made).0) }
        ensures lowers { IfOk result (λ made. is_idle made ≡ false → tree_debt self.new (root_after root made).0 + 1 ≤ tree_debt self.old root.0) }
        ensures one { IfOk result (λ made. IsOneStep text_widths self.new (node_at self.old root.0) made) }
        ensures idle { IfOk result (λ made. is_idle made ≡ not (tree_allows self.old root.0)) }
        ensures dropped { IfOk result (λ made. is_dropped made ≡ has_lone_child (node_at self.old root.0)) }
        ensures succeeds { tree_allows self.old root.0 ≡ false → IsOk result }
        ensures same { tree_allows self.old root.0 ≡ false → self.new ≡ self.old }
        ensures refused { OnErr result (self.new ≡ self.old) }
    {
        let mark = self.arena.mark();
        let Ok(made) = balance_step(&mut self.arena, root) else {
            self.arena.truncate(mark);
            return Err(Memory);
        };
        Ok(made)
    }

    /// What `back` goes back to. It takes no memory.
    pub fn mark(&self) -> u64
        ensures { result ≡ length self.now }
    {
        self.arena.mark()
    }

    /// Drops what came since the mark, and leaves what was there. It takes no memory.
    pub fn back(&mut self, mark: u64)
        requires { mark ≤ length self.old }
        ensures { self.new ≡ take mark self.old }
    {
        self.arena.truncate(mark);
    }

    /// Where memory comes from.
    pub fn allocator(&self) -> Global {
        self.alloc
    }

    /// Makes the sweep that was planned: nodes that its roots do not reach are let go. Gives the roots as they are named
    /// now. It takes no memory.
    pub fn finish_sweep(&mut self, plan: SweepPlan) -> List<Node>
        requires { IsPlanFor self.old plan }
        ensures swept { IsSwept self.old plan.roots self.new (numbers result.items) }
        ensures rows { map (rows_of self.new) (numbers result.items) ≡ map (rows_of self.old) plan.roots }
        ensures debts { map (tree_debt self.new) (numbers result.items) ≡ map (tree_debt self.old) plan.roots }
        ensures allowed { map (tree_allows self.new) (numbers result.items) ≡ map (tree_allows self.old) plan.roots }
        ensures depths { map (depth_of text_widths self.new) (numbers result.items) ≡ map (depth_of text_widths self.old) plan.roots }
        ensures count { length self.new ≡ reached_count self.old plan.roots }
        ensures none_left { unreached_count self.new (numbers result.items) ≡ 0 }
    {
        finish_sweep(&mut self.arena, plan)
    }

    /// The arena of all trees.
    pub fn arena(&self) -> &Arena<TextPlane>
        ensures { result.now ≡ self.now }
    {
        &self.arena
    }
}
