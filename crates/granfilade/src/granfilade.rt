//! The tree of contents.
ghost use Rattle.std.specs.Prelude.{◌≡◌, ℕ, ◌+◌, ◌<◌, ◌≤◌, ◌++◌, [], ◌∷◌, length, take, not, false, IsOk, IfOk, OnOk, OnErr};
ghost use Rattle.tumbler.specs.Places.{place_bound};
ghost use Rattle.tumbler.specs.Span.{SpanFits};
ghost use Rattle.enfilade_core.specs.Rows.{rows_of, node_at};
ghost use Rattle.enfilade_core.specs.Exchange.{Grows};
ghost use Rattle.enfilade_core.specs.Planes.{content_widths};
ghost use Rattle.enfilade_core.specs.BalanceState.{tree_debt, tree_allows, has_lone_child};
ghost use Rattle.enfilade_balance.specs.Depth.{KeepsDepth};
ghost use Rattle.enfilade_balance.specs.OneStep.{IsOneStep};
ghost use Rattle.enfilade_balance.specs.Steps.{root_after, is_idle, is_dropped};
ghost use Rattle.enfilade_sweep.specs.Sweep.{IsSweptTree};
ghost use Rattle.enfilade_sweep.specs.Plan.{IsPlanFor};
ghost use Rattle.granfilade.specs.Content.{ContentTree, laid, content, tree_rows, laid_out, bytes_in};
ghost use Rattle.granfilade.specs.Steps.{last_of};
ghost use Rattle.granfilade.specs.Puts.{IsNext, IsContent, ComesIn, put_in};

use crate::leaves::{leaves, leaves_of};
use crate::lengthened::{Lengthened, last_lengthened};
use crate::reading::append_node;
use enfilade_balance::{Balance, balance_step};
use enfilade_core::laws::nodes_are_well_formed;
use enfilade_core::{Arena, ContentPlane, Gap, Node, TreeMark};
use enfilade_sweep::{SweepPlan, finish_tree, plan_tree};
use std::alloc::Global;
use std::marker::Model;
use tumbler::laws::is_tumbler;
use tumbler::{Memory, Span, Text, Tumbler};

/// The bytes of all documents, each at its address, in one tree.
///
/// A contract sees the arena's nodes and the tree's root. What the tree holds is its rows' bytes, laid out
/// each at an address of its own.
#[derive(Drop)]
pub struct Granfilade {
    arena: Arena<ContentPlane>,
    root: Node,
}

impl Model for Granfilade {
    ghost use Rattle.std.specs.Prelude.{◌<◌, length};
    ghost use Rattle.granfilade.specs.Content.{ContentTree};

    ghost Value = { ContentTree };

    ghost view = { λ g. record { nodes = g.arena; root = g.root.0 } };

    ghost invariant = { λ g. g.root.0 < length g.arena };
}

impl Granfilade {
    /// One that holds nothing.
    pub fn new(alloc: Global) -> Result<Granfilade, Memory>
        ensures bytes { IfOk result (λ made. content made ≡ []) }
        ensures rows { IfOk result (λ made. IsContent (tree_rows made)) }
    {
        let mut arena = Arena::new(alloc);
        let root = arena.empty()?;
        Ok(Granfilade { arena, root })
    }

    /// The tree of this root in an arena. It takes no memory.
    pub fn from_parts(arena: Arena<ContentPlane>, root: Node) -> Granfilade
        requires { root.0 < length arena }
        ensures value { result ≡ record { nodes = arena; root = root.0 } }
    {
        Granfilade { arena, root }
    }

    /// Puts bytes in, the first one at `start` and each other at the address after the one in front of it.
    ///
    /// A row of the tree has at most 1,024 of them. Where the last row in front ends at `start` and has room, and no
    /// other begins where it does, it becomes longer. Where memory is refused, the tree is as before, though the arena
    /// may have more nodes.
    pub fn put(&mut self, start: &Tumbler, bytes: &[u8]) -> Result<(), Memory>
        requires next { IsNext start.now (content self.old) }
        requires room { last_of start.now + length bytes.now < place_bound }
        ensures grows { Grows self.old.nodes self.new.nodes }
        ensures added { OnOk result (ComesIn (laid start.now bytes.now) (content self.old) (content self.new)) }
        ensures bytes { IsContent (tree_rows self.old) → OnOk result (content self.new ≡ put_in start.now (laid start.now bytes.now) (content self.old)) }
        ensures rows { IsContent (tree_rows self.old) → OnOk result (IsContent (tree_rows self.new)) }
        ensures level { OnOk result (KeepsDepth content_widths self.old.nodes self.old.root self.new.nodes self.new.root) }
        ensures root { OnErr result (self.new.root ≡ self.old.root) }
        ensures refused { OnErr result (tree_rows self.new ≡ tree_rows self.old) }
    {
        nodes_are_well_formed(&self.arena);
        let Some(longer) = last_lengthened(&self.arena, self.root, start, bytes)? else {
            return self.put_rows(start, bytes);
        };
        let Lengthened { from, text } = longer;
        let rows = leaves_of(&from, text)?;
        let gap = Gap {
            from,
            to: start.copy(),
            onto: start.copy(),
        };
        let made = self.arena.exchange(self.root, &gap, &rows)?;
        if made.out.len() != 1 {
            return self.put_rows(start, bytes);
        }
        self.root = made.root;
        Ok(())
    }

    /// The same, in rows of their own.
    fn put_rows(&mut self, start: &Tumbler, bytes: &[u8]) -> Result<(), Memory>
        requires next { IsNext start.now (content self.old) }
        requires room { last_of start.now + length bytes.now < place_bound }
        ensures grows { Grows self.old.nodes self.new.nodes }
        ensures added { OnOk result (ComesIn (laid start.now bytes.now) (content self.old) (content self.new)) }
        ensures bytes { IsContent (tree_rows self.old) → OnOk result (content self.new ≡ put_in start.now (laid start.now bytes.now) (content self.old)) }
        ensures rows { IsContent (tree_rows self.old) → OnOk result (IsContent (tree_rows self.new)) }
        ensures level { OnOk result (KeepsDepth content_widths self.old.nodes self.old.root self.new.nodes self.new.root) }
        ensures root { OnErr result (self.new.root ≡ self.old.root) }
        ensures refused { OnErr result (tree_rows self.new ≡ tree_rows self.old) }
    {
        nodes_are_well_formed(&self.arena);
        let rows = leaves(start, bytes)?;
        self.root = self.arena.splice(self.root, start, &rows)?;
        Ok(())
    }

    /// Makes one step of the balancer, if one is allowed, and goes on with its root.
    ///
    /// The rows stay. Where memory is refused all is as before. Where no step is allowed it takes no memory.
    pub fn balance(&mut self) -> Result<Balance, Memory>
        ensures rows { tree_rows self.new ≡ tree_rows self.old }
        ensures grows { Grows self.old.nodes self.new.nodes }
        ensures root { IfOk result (λ made. self.new.root ≡ (root_after (record { 0 = self.old.root }) made).0) }
        ensures lowers { IfOk result (λ made. is_idle made ≡ false → tree_debt self.new.nodes self.new.root + 1 ≤ tree_debt self.old.nodes self.old.root) }
        ensures one { IfOk result (λ made. IsOneStep content_widths self.new.nodes (node_at self.old.nodes self.old.root) made) }
        ensures idle { IfOk result (λ made. is_idle made ≡ not (tree_allows self.old.nodes self.old.root)) }
        ensures dropped { IfOk result (λ made. is_dropped made ≡ has_lone_child (node_at self.old.nodes self.old.root)) }
        ensures succeeds { tree_allows self.old.nodes self.old.root ≡ false → IsOk result }
        ensures same { tree_allows self.old.nodes self.old.root ≡ false → self.new ≡ self.old }
        ensures refused { OnErr result (self.new ≡ self.old) }
    {
        let mark = self.arena.mark();
        let Ok(made) = balance_step(&mut self.arena, self.root) else {
            self.arena.truncate(mark);
            return Err(Memory);
        };
        self.root = root_after(self.root, made);
        Ok(made)
    }

    /// Finds which nodes a sweep keeps. It takes all the memory that the sweep needs, and the tree stays as it is.
    pub fn plan_sweep(&self) -> Result<SweepPlan, Memory>
        ensures made { IfOk result (IsPlanFor self.now.nodes) }
        ensures root { IfOk result (λ plan. plan.roots ≡ self.now.root ∷ []) }
    {
        plan_tree(&self.arena, self.root)
    }

    /// Makes the sweep that was planned: nodes that the tree does not reach are let go. It takes no memory.
    pub fn finish_sweep(&mut self, plan: SweepPlan)
        requires made { IsPlanFor self.old.nodes plan }
        requires root { plan.roots ≡ self.old.root ∷ [] }
        ensures { IsSweptTree content_widths self.old.nodes self.old.root self.new.nodes self.new.root }
    {
        self.root = finish_tree(&mut self.arena, plan);
    }

    /// The arena and the tree's root, lent.
    pub fn parts(&self) -> (&Arena<ContentPlane>, Node)
        ensures arena { result.0.now ≡ self.now.nodes }
        ensures root { result.1.0 ≡ self.now.root }
        ensures below { result.1.0 < length self.now.nodes }
    {
        (&self.arena, self.root)
    }

    /// What `back` goes back to. It takes no memory.
    pub fn mark(&self) -> TreeMark
        ensures root { result.root.0 ≡ self.now.root }
        ensures count { result.count ≡ length self.now.nodes }
        ensures below { result.root.0 < result.count }
    {
        TreeMark {
            root: self.root,
            count: self.arena.mark(),
        }
    }

    /// Goes back to the tree of the mark, and drops the nodes that came after it. It takes no memory.
    pub fn back(&mut self, mark: &TreeMark)
        requires below { mark.now.root.0 < mark.now.count }
        requires held { mark.now.count ≤ length self.old.nodes }
        ensures root { self.new.root ≡ mark.now.root.0 }
        ensures nodes { self.new.nodes ≡ take mark.now.count self.old.nodes }
        ensures rows { tree_rows self.new ≡ rows_of self.old.nodes mark.now.root.0 }
        ensures bytes { content self.new ≡ laid_out (rows_of self.old.nodes mark.now.root.0) }
        ensures restored { (before : ContentTree) → Grows before.nodes self.old.nodes → mark.now.root.0 ≡ before.root → mark.now.count ≡ length before.nodes → self.new ≡ before }
    {
        self.arena.truncate(mark.count);
        self.root = mark.root;
    }

    /// Appends the bytes whose addresses are in the span, in the order of their addresses.
    ///
    /// Where memory is refused, `into` may have some of them behind what it held.
    pub fn bytes_of(&self, span: &Span, into: &mut Text) -> Result<(), Memory>
        requires fits { SpanFits span.now }
        ensures ok { OnOk result (into.new.items ≡ into.old.items ++ bytes_in span.now (content self.now)) }
        ensures kept { take (length into.old.items) into.new.items ≡ into.old.items }
    {
        let alloc = self.arena.allocator();
        is_tumbler(&span.start);
        let end = span.start.add(&span.width);
        let zero = Tumbler::zero(alloc);
        append_node(&self.arena, self.root, &zero, &zero, span, &end, into)
    }
}

/// The root of a tree after a step.
fn root_after(root: Node, made: Balance) -> Node
    ensures { result ≡ root_after root made }
{
    match made {
        Balance::Split(made) | Balance::Merged(made) | Balance::Dropped(made) => made,
        Balance::Idle => root,
    }
}
