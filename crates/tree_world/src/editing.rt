//! Changes of what stands in a document.
ghost use Rattle.std.specs.Prelude.{◌≡◌, ℕ, ◌+◌, ◌≤◌, map, IsTrue, OnOk, OnErr};
ghost use Rattle.poom.specs.Laid.{AreCuts};
ghost use Rattle.febe_data.specs.Plain.{plain_spec, span_deleted, blocks_swapped, specs_copied};
ghost use Rattle.world_rules.specs.FlatView.{FlatView};
ghost use Rattle.tree_world.specs.Standing.{Stands};
ghost use Rattle.tree_world.specs.Changed.{after_change};
ghost use Rattle.tree_world.specs.Undone.{EntryCame, DocumentEdited};

use crate::counts::one_more;
use crate::indexing::{index_runs, total_bytes};
use crate::marking::set_root;
use crate::world::TreeWorld;
use febe_data::{List, Memory, Span, Spec, Tumbler};
use std::alloc::Global;

/// The most text that a document has.
const MOST_TEXT: u32 = 1_073_741_824;

/// Whether these are three cuts or four, none before the one in front of it, from 1 up to the end.
fn are_cuts(cuts: &[u32], end: u32) -> bool
    ensures { IsTrue result → AreCuts cuts.now end }
{
    match *cuts {
        [first, second, third] => 1 <= first && first <= second && second <= third && third <= end,
        [first, second, third, fourth] => {
            1 <= first && first <= second && second <= third && third <= fourth && fourth <= end
        }
        _ => false,
    }
}

impl TreeWorld {
    /// What the span picks goes from the document.
    pub(crate) fn delete(&mut self, document: &Tumbler, span: &Span) -> Result<(), Memory>
        ensures ok { (view : FlatView) (session : ℕ) → Stands self.old view → OnOk result (Stands self.new (after_change view session (span_deleted document.now span.now))) }
        ensures err { OnErr result (self.new ≡ self.old) }
        ensures came { OnOk result (EntryCame (DocumentEdited document.now) self.old self.new) }
        ensures sessions { self.new.sessions ≡ self.old.sessions }
    {
        let counted = one_more(self.counted)?;
        let Some(root) = self.documents.root(document) else {
            return Err(Memory);
        };
        if !span.fits() {
            return Err(Memory);
        }
        self.due.reserve(1)?;
        let made = self.pooms.delete(root, span)?;
        set_root(
            &mut self.due,
            &self.pooms,
            &mut self.documents,
            document,
            root,
            made,
        );
        self.counted = counted;
        Ok(())
    }

    /// The blocks of the document between the cuts change places.
    pub(crate) fn rearrange(&mut self, document: &Tumbler, cuts: &List<u32>) -> Result<(), Memory>
        ensures ok { (view : FlatView) (session : ℕ) → Stands self.old view → OnOk result (Stands self.new (after_change view session (blocks_swapped document.now cuts.now.items))) }
        ensures err { OnErr result (self.new ≡ self.old) }
        ensures came { OnOk result (EntryCame (DocumentEdited document.now) self.old self.new) }
        ensures sessions { self.new.sessions ≡ self.old.sessions }
    {
        let counted = one_more(self.counted)?;
        let Some(root) = self.documents.root(document) else {
            return Err(Memory);
        };
        if !are_cuts(cuts.as_slice(), self.pooms.length(root) + 1) {
            return Err(Memory);
        }
        self.due.reserve(1)?;
        let made = self.pooms.rearrange(root, cuts)?;
        set_root(
            &mut self.due,
            &self.pooms,
            &mut self.documents,
            document,
            root,
            made,
        );
        self.counted = counted;
        Ok(())
    }
}

/// Whether so many bytes may come into a text at this position.
pub(crate) fn has_place(length: u32, at: u32, count: u32) -> bool
    ensures from_one { IsTrue result → 1 ≤ at }
    ensures to_end { IsTrue result → at ≤ 1 + length }
    ensures room { IsTrue result → length + count ≤ 1073741824 }
{
    if at == 0 {
        return false;
    }
    if at - 1 > length {
        return false;
    }
    match length.checked_add(count) {
        Some(total) => total <= MOST_TEXT,
        None => false,
    }
}

impl TreeWorld {
    /// What the specs pick comes into the document at a position.
    pub(crate) fn copy(
        &mut self,
        alloc: Global,
        document: &Tumbler,
        at: u32,
        specs: &[Spec],
    ) -> Result<(), Memory>
        ensures ok { (view : FlatView) (session : ℕ) → Stands self.old view → OnOk result (Stands self.new (after_change view session (specs_copied document.now at (map plain_spec specs.now)))) }
        ensures err { OnErr result (self.new ≡ self.old) }
        ensures came { OnOk result (EntryCame (DocumentEdited document.now) self.old self.new) }
        ensures sessions { self.new.sessions ≡ self.old.sessions }
    {
        let counted = one_more(self.counted)?;
        let Some(root) = self.documents.root(document) else {
            return Err(Memory);
        };
        let runs = self.runs_by_specs(alloc, specs)?;
        let Some(total) = total_bytes(runs.as_slice()) else {
            return Err(Memory);
        };
        if !has_place(self.pooms.length(root), at, total) {
            return Err(Memory);
        }
        self.due.reserve(1)?;
        let mark = self.pooms.mark();
        let made = self.pooms.copy_in(root, at, &runs)?;
        let Ok(()) = index_runs(alloc, &mut self.index, runs.as_slice(), document) else {
            self.pooms.back(mark);
            return Err(Memory);
        };
        set_root(
            &mut self.due,
            &self.pooms,
            &mut self.documents,
            document,
            root,
            made,
        );
        self.counted = counted;
        Ok(())
    }
}
