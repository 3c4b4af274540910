//! What specs pick: how much it is, and its runs.
ghost use Rattle.std.specs.Prelude.{◌≡◌, ◌+◌, ◌<◌, ◌≤◌, ◌++◌, nat_lt, true, false, map, length, All, IfOk, IfSome, IfNone, OnOk};
ghost use Rattle.std.specs.List.{sum_by};
ghost use Rattle.tumbler.specs.Span.{SpanFits};
ghost use Rattle.febe_data.specs.Plain.{plain_spec};
ghost use Rattle.poom.specs.Edited.{IsContentRun, run_addresses};
ghost use Rattle.world_rules.specs.FlatView.{FlatView};
ghost use Rattle.world_rules.specs.Picking.{picked_addresses, runs_of};
ghost use Rattle.world_rules.specs.Refusals.{total_of};
ghost use Rattle.tree_world.specs.Trees.{text_in, links_in};
ghost use Rattle.tree_world.specs.Standing.{Stands};
ghost use Rattle.tree_world.specs.inside.Seen.{text_picked, text_count, link_count, addresses_by_spec, addresses_by_specs, runs_picked, runs_by_spec, runs_by_specs, ComesTo};

use crate::positions::picked_count;
use crate::world::TreeWorld;
use febe_data::{List, Memory, Run, Span, Spec, Tumbler};
use std::alloc::Global;
use world_rules::WorldError;

/// Adds runs.
fn push_runs(made: &mut List<Run>, runs: &[Run]) -> Result<(), Memory>
    ensures { OnOk result (made.new.items ≡ made.old.items ++ runs.now) }
{
    for run in runs {
        made.push(run.copy())?;
    }
    Ok(())
}

impl TreeWorld {
    /// How many bytes a document's text has, and none where there is no such document. It takes no memory.
    pub(crate) fn text_long(&self, document: &Tumbler) -> u32
        ensures value { result ≡ length (text_in self.now document.now) }
        ensures few { result ≤ 4294967294 }
    {
        let Some(root) = self.documents.root(document) else {
            return 0;
        };
        self.pooms.length(root)
    }

    /// How many links a document has, and none where there is no such document. It takes no memory.
    pub(crate) fn links_long(&self, document: &Tumbler) -> u32
        ensures value { result ≡ length (links_in self.now document.now) }
        ensures few { result ≤ 4294967294 }
    {
        let Some(root) = self.documents.root(document) else {
            return 0;
        };
        self.pooms.links(root)
    }

    /// How many bytes of a document's text, which is so long, a span picks. It looks at no tree, and takes no memory.
    pub(crate) fn text_count(&self, _document: &Tumbler, long: u32, span: &Span) -> u32
        requires fits { SpanFits span.now }
        requires long { long ≡ length (text_in self.now _document.now) }
        requires few { long ≤ 4294967294 }
        ensures { result ≡ text_count self.now _document.now span.now }
    {
        picked_count(1, span, long)
    }

    /// How many of a document's links, which are so many, a span picks. It looks at no tree, and takes no memory.
    pub(crate) fn link_count(&self, _document: &Tumbler, many: u32, span: &Span) -> u32
        requires fits { SpanFits span.now }
        requires many { many ≡ length (links_in self.now _document.now) }
        requires few { many ≤ 4294967294 }
        ensures { result ≡ link_count self.now _document.now span.now }
    {
        picked_count(2, span, many)
    }

    /// How many addresses the spans of a spec pick.
    #[tactic(auto, using(crate::proofs::Steps::steps))]
    fn count_by_spec(&self, spec: &Spec) -> Result<usize, WorldError>
        ensures { IfOk result (λ picked. picked ≡ sum_by (text_count self.now spec.now.document) spec.now.spans.items) }
    {
        let long = self.text_long(&spec.document);
        let mut picked: usize = 0;
        for span in spec.spans.as_slice() {
            if !span.fits() {
                return Err(WorldError::NoTumbler);
            }
            let count = self.text_count(&spec.document, long, span) as usize;
            picked = picked.checked_add(count).ok_or(WorldError::TooGreat)?;
        }
        Ok(picked)
    }

    /// How many addresses the specs pick, tree by tree.
    #[tactic(auto, using(crate::proofs::Steps::steps))]
    fn count_by_specs(&self, specs: &[Spec]) -> Result<usize, WorldError>
        ensures { IfOk result (λ picked. picked ≡ total_of (text_count self.now) (map plain_spec specs.now)) }
    {
        let mut picked: usize = 0;
        for spec in specs {
            let count = self.count_by_spec(spec)?;
            picked = picked.checked_add(count).ok_or(WorldError::TooGreat)?;
        }
        Ok(picked)
    }

    /// How many addresses the specs pick, with repeats.
    pub(crate) fn picked_addresses(&self, specs: &[Spec]) -> Result<usize, WorldError>
        ensures { (view : FlatView) → Stands self.now view → IfOk result (λ picked. picked ≡ length (picked_addresses view.world (map plain_spec specs.now))) }
    {
        let picked = self.count_by_specs(specs)?;
        Ok(picked)
    }

    /// The runs of what a span picks from a document's text, which is so long. A span that picks nothing looks at no tree.
    pub(crate) fn span_runs(
        &self,
        document: &Tumbler,
        long: u32,
        span: &Span,
    ) -> Result<List<Run>, Memory>
        requires fits { SpanFits span.now }
        requires long { long ≡ length (text_in self.now document.now) }
        requires few { long ≤ 4294967294 }
        ensures runs { IfOk result (λ runs. runs.items ≡ runs_picked self.now document.now span.now) }
        ensures bytes { IfOk result (λ runs. run_addresses runs.items ≡ text_picked self.now document.now span.now) }
        ensures content { IfOk result (λ runs. All IsContentRun runs.items) }
    {
        if self.text_count(document, long, span) == 0 {
            return Ok(List::new(self.alloc));
        }
        let Some(root) = self.documents.root(document) else {
            return Ok(List::new(self.alloc));
        };
        let runs = self.pooms.picked(root, document, span)?;
        Ok(runs)
    }

    /// Adds the runs of what a spec picks.
    #[tactic(auto, using(crate::proofs::Steps::steps, crate::proofs::Steps::run_steps))]
    fn push_spec_runs(&self, made: &mut List<Run>, spec: &Spec) -> Result<(), WorldError>
        ensures runs { OnOk result (made.new.items ≡ made.old.items ++ runs_by_spec self.now (plain_spec spec.now)) }
        ensures bytes { OnOk result (run_addresses made.new.items ≡ run_addresses made.old.items ++ addresses_by_spec self.now (plain_spec spec.now)) }
        ensures content { OnOk result (All IsContentRun made.old.items → All IsContentRun made.new.items) }
    {
        let long = self.text_long(&spec.document);
        for span in spec.spans.as_slice() {
            if !span.fits() {
                return Err(WorldError::NoTumbler);
            }
            let runs = self.span_runs(&spec.document, long, span)?;
            push_runs(made, runs.as_slice())?;
        }
        Ok(())
    }

    /// The runs of what the specs pick, tree by tree.
    #[tactic(auto, using(crate::proofs::Steps::steps, crate::proofs::Steps::run_steps))]
    pub(crate) fn runs_by_specs(
        &self,
        alloc: Global,
        specs: &[Spec],
    ) -> Result<List<Run>, WorldError>
        ensures runs { IfOk result (λ runs. runs.items ≡ runs_by_specs self.now (map plain_spec specs.now)) }
        ensures bytes { IfOk result (λ runs. run_addresses runs.items ≡ addresses_by_specs self.now (map plain_spec specs.now)) }
        ensures content { IfOk result (λ runs. All IsContentRun runs.items) }
    {
        let mut made = List::new(alloc);
        for spec in specs {
            self.push_spec_runs(&mut made, spec)?;
        }
        Ok(made)
    }

    /// The runs that the specs pick.
    pub(crate) fn picked_runs(&self, alloc: Global, specs: &[Spec]) -> Result<List<Run>, WorldError>
        ensures { (view : FlatView) → Stands self.now view → IfOk result (λ runs. runs.items ≡ runs_of view.world (map plain_spec specs.now)) }
    {
        let runs = self.runs_by_specs(alloc, specs)?;
        Ok(runs)
    }

    /// Adds the runs of what a spec picks, until there are more than `most`. It tells whether all of them came in.
    fn push_spec_runs_up_to(
        &self,
        made: &mut List<Run>,
        spec: &Spec,
        most: usize,
    ) -> Result<bool, WorldError>
        ensures { IfOk result (ComesTo most (made.old.items ++ runs_by_spec self.now (plain_spec spec.now)) made.new.items) }
    {
        let long = self.text_long(&spec.document);
        for span in spec.spans.as_slice() {
            if !span.fits() {
                return Err(WorldError::NoTumbler);
            }
            let runs = self.span_runs(&spec.document, long, span)?;
            push_runs(made, runs.as_slice())?;
            if made.len() > most {
                return Ok(false);
            }
        }
        Ok(true)
    }

    /// The runs of what the specs pick, tree by tree, or none where there are more than `most`.
    fn runs_by_specs_up_to(
        &self,
        alloc: Global,
        specs: &[Spec],
        most: usize,
    ) -> Result<Option<List<Run>>, WorldError>
        ensures runs { IfOk result (λ found. IfSome found (λ runs. runs.items ≡ runs_by_specs self.now (map plain_spec specs.now))) }
        ensures many { IfOk result (λ found. IfNone found (most < length (runs_by_specs self.now (map plain_spec specs.now)))) }
    {
        let mut made = List::new(alloc);
        for spec in specs {
            if !self.push_spec_runs_up_to(&mut made, spec, most)? {
                return Ok(None);
            }
        }
        Ok(Some(made))
    }

    /// The runs that the specs pick, or none where there are more than `most`. It makes few more than that.
    pub(crate) fn runs_within(
        &self,
        alloc: Global,
        specs: &[Spec],
        most: usize,
    ) -> Result<Option<List<Run>>, WorldError>
        ensures runs { (view : FlatView) → Stands self.now view → IfOk result (λ found. IfSome found (λ runs. runs.items ≡ runs_of view.world (map plain_spec specs.now))) }
        ensures few { IfOk result (λ found. IfSome found (λ runs. nat_lt most (length runs.items) ≡ false)) }
        ensures many { (view : FlatView) → Stands self.now view → IfOk result (λ found. IfNone found (nat_lt most (length (runs_of view.world (map plain_spec specs.now))) ≡ true)) }
    {
        let Some(runs) = self.runs_by_specs_up_to(alloc, specs, most)? else {
            return Ok(None);
        };
        if runs.len() > most {
            return Ok(None);
        }
        Ok(Some(runs))
    }
}
