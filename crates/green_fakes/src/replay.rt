//! The changes of an area, one after another, with what a crash may leave of them.
ghost use Rattle.std.specs.Prelude.{◌≡◌, List, ℕ, ◌∷◌, None, reverse, if◌then◌else◌, IfOk, OnOk};
ghost use Rattle.green_io.specs.Areas.{is_same};
ghost use Rattle.green_fakes.specs.declared.change.Change.{Change};
ghost use Rattle.green_fakes.specs.DiskView.{after_step, bytes_after};
ghost use Rattle.green_fakes.specs.DiskImages.{IsLeft, IsLeftOf, IsTornBy, is_sync, synced_after};

use crate::area_bytes::AreaBytes;
use crate::change::{Change, Step};
use febe_data::{Generator, Memory};
use green_io::Area;
use std::alloc::Global;

/// What an area reads, and what a crash leaves of it.
#[derive(Drop)]
pub(crate) struct Replay {
    pub(crate) reads: AreaBytes,
    pub(crate) left: AreaBytes,
}

// Whether these are one area.
fn is_same(one: Area, other: Area) -> bool
    ensures { result ≡ is_same one other }
{
    match one {
        Area::Log => other == Area::Log,
        Area::Home => other == Area::Home,
        Area::Journal => other == Area::Journal,
        Area::Second => other == Area::Second,
    }
}

// Does the step to what is read.
fn follow(bytes: &mut AreaBytes, step: &Step) -> Result<(), Memory>
    ensures { OnOk result (bytes.new ≡ after_step step.now bytes.old) }
{
    match step {
        Step::Write { at, bytes: text } => bytes.write(*at, text.as_slice()),
        Step::Cut { length } => {
            bytes.cut(*length);
            Ok(())
        }
        Step::FailedWrite { .. } | Step::FailedCut { .. } | Step::Sync => Ok(()),
    }
}

// Does any part of the step that a crash may leave.
fn tear(bytes: &mut AreaBytes, step: &Step, generator: &mut Generator) -> Result<(), Memory>
    ensures { OnOk result (IsTornBy step.now bytes.old bytes.new) }
{
    match step {
        Step::Write { at, bytes: text } => bytes.tear(*at, text.len(), generator),
        Step::FailedWrite { at, count } => bytes.tear(*at, *count, generator),
        Step::Cut { length } | Step::FailedCut { length } => {
            bytes.tear_cut(*length, generator);
            Ok(())
        }
        Step::Sync => Ok(()),
    }
}

// Does any part of the step, or with no generator nothing of it.
fn tear_by(
    bytes: &mut AreaBytes,
    step: &Step,
    generator: &mut Option<Generator>,
) -> Result<(), Memory>
    ensures torn { OnOk result (IsTornBy step.now bytes.old bytes.new) }
    ensures stays { generator.old ≡ None → OnOk result (bytes.new ≡ bytes.old) }
    ensures none { generator.old ≡ None → generator.new ≡ None }
{
    match generator {
        Some(generator) => tear(bytes, step, generator),
        None => Ok(()),
    }
}

// Whether the step is a sync.
fn is_sync(step: &Step) -> bool
    ensures { result ≡ is_sync step.now }
{
    match step {
        Step::Sync => true,
        Step::Write { .. } | Step::FailedWrite { .. } | Step::Cut { .. } | Step::FailedCut { .. } =>
            false,
    }
}

impl Replay {
    // Does a step of the area.
    fn step(
        &mut self,
        alloc: Global,
        step: &Step,
        generator: &mut Option<Generator>,
    ) -> Result<(), Memory>
        ensures reads { OnOk result (self.new.reads ≡ after_step step.now self.old.reads) }
        ensures left { OnOk result (IsLeftOf (is_sync step.now) step.now self.old.reads self.old.left self.new.left) }
        ensures synced { generator.old ≡ None → OnOk result (self.new.left ≡ (if is_sync step.now then self.old.reads else self.old.left)) }
        ensures none { generator.old ≡ None → generator.new ≡ None }
    {
        if is_sync(step) {
            self.left = self.reads.copy(alloc)?;
            return Ok(());
        }
        tear_by(&mut self.left, step, generator)?;
        follow(&mut self.reads, step)?;
        Ok(())
    }

    // Does a change, which may be one of another area.
    fn change(
        &mut self,
        alloc: Global,
        change: &Change,
        area: Area,
        generator: &mut Option<Generator>,
    ) -> Result<(), Memory>
        ensures reads { OnOk result (self.new.reads ≡ (if is_same change.now.area area then after_step change.now.step self.old.reads else self.old.reads)) }
        ensures left { (first : List ℕ) (before : List Change) → self.old.reads ≡ bytes_after area first before → IsLeft area first before self.old.left → OnOk result (IsLeft area first (change.now ∷ before) self.new.left) }
        ensures synced { (first : List ℕ) (before : List Change) → self.old.reads ≡ bytes_after area first before → generator.old ≡ None → self.old.left ≡ synced_after area first before → OnOk result (self.new.left ≡ synced_after area first (change.now ∷ before)) }
        ensures none { generator.old ≡ None → generator.new ≡ None }
    {
        if !is_same(change.area, area) {
            return Ok(());
        }
        self.step(alloc, &change.step, generator)?;
        Ok(())
    }

    /// What an area reads that held these bytes at first, and what a crash leaves of it: what the generator chooses, or
    /// with none what was last synced.
    pub(crate) fn of(
        alloc: Global,
        first: &[u8],
        changes: &[Change],
        area: Area,
        generator: &mut Option<Generator>,
    ) -> Result<Replay, Memory>
        ensures reads { IfOk result (λ replay. replay.reads ≡ bytes_after area first.now (reverse changes.now)) }
        ensures left { IfOk result (λ replay. IsLeft area first.now (reverse changes.now) replay.left) }
        ensures synced { generator.old ≡ None → IfOk result (λ replay. replay.left ≡ synced_after area first.now (reverse changes.now)) }
        ensures none { generator.old ≡ None → generator.new ≡ None }
    {
        let reads = AreaBytes::holding(alloc, first)?;
        let left = AreaBytes::holding(alloc, first)?;
        let mut replay = Replay { reads, left };
        for change in changes {
            replay.change(alloc, change, area, generator)?;
        }
        Ok(replay)
    }
}
