//! Nodes that no root reaches are let go. All the memory that this takes is taken before the first node moves.
ghost use Rattle.std.specs.Prelude.{◌≡◌, map, All, IfOk, OnOk, OnErr};
ghost use Rattle.enfilade_sweep.specs.Plan.{IsPlanFor};
ghost use Rattle.poom.specs.Laid.{IsRoot};
ghost use Rattle.doc_table.specs.declared.rows.DocumentRow.{DocumentRow};
ghost use Rattle.world_rules.specs.FlatView.{FlatView};
ghost use Rattle.tree_world.specs.Condition.{roots_in, condition_of, StaysInShape};
ghost use Rattle.tree_world.specs.Standing.{Stands};

use crate::world::TreeWorld;
use doc_table::DocTable;
use enfilade_core::Node;
use enfilade_sweep::{SweepPlan, plan_sweep};
use poom::Poom;
use std::alloc::Global;
use tumbler::{List, Memory};

/// The roots of all documents, in the table's order.
fn roots_of(alloc: Global, documents: &DocTable<Node>) -> Result<List<Node>, Memory>
    ensures { IfOk result (λ made. made.items ≡ map (λ (row : DocumentRow Node). row.root) documents.now) }
{
    let mut made = List::new(alloc);
    for k in 0..documents.len() {
        let Some(root) = documents.root_at(k) else {
            unreachable!()
        };
        made.push(root)?;
    }
    Ok(made)
}

/// Finds which nodes a sweep of all documents' trees keeps. It takes all the memory that the sweep needs.
fn plan_documents(
    alloc: Global,
    pooms: &Poom,
    documents: &DocTable<Node>,
) -> Result<SweepPlan, Memory>
    requires roots { All (λ (row : DocumentRow Node). IsRoot pooms.now row.root.0) documents.now }
    ensures made { IfOk result (IsPlanFor pooms.now) }
    ensures roots { IfOk result (λ plan. plan.roots ≡ roots_in documents.now) }
{
    let roots = roots_of(alloc, documents)?;
    let plan = plan_sweep(pooms.arena(), roots)?;
    Ok(plan)
}

impl TreeWorld {
    /// Lets go of all nodes that no tree's root reaches. The sweeps of all trees are planned before the first is made.
    pub(crate) fn sweep_trees(&mut self, alloc: Global) -> Result<(), Memory>
        ensures stands { (view : FlatView) → Stands self.old view → Stands self.new view }
        ensures count { OnOk result ((condition_of self.new).nodes ≡ (condition_of self.old).reached) }
        ensures none_left { OnOk result ((condition_of self.new).unreached ≡ 0) }
        ensures shape { OnOk result (StaysInShape (condition_of self.old) (condition_of self.new)) }
        ensures err { OnErr result (self.new ≡ self.old) }
    {
        let contents = self.contents.plan_sweep()?;
        let index = self.index.plan_sweep()?;
        let from = self.links.index(1).plan_sweep()?;
        let to = self.links.index(2).plan_sweep()?;
        let three = self.links.index(3).plan_sweep()?;
        let documents = plan_documents(alloc, &self.pooms, &self.documents)?;
        self.contents.finish_sweep(contents);
        self.index.finish_sweep(index);
        self.links.finish_sweep(from, to, three);
        let roots = self.pooms.finish_sweep(documents);
        self.documents.set_roots(roots.as_slice());
        Ok(())
    }
}
