//! Whether specs can be of a change that comes after what made a world.
ghost use Rattle.std.specs.Prelude.{◌↔◌, ◌≤◌, IsTrue, IfOk, All, length, map};
ghost use Rattle.tumbler.specs.Span.{SpanFits};
ghost use Rattle.febe_data.specs.Plain.{plain_spec};
ghost use Rattle.world_rules.specs.FlatView.{FlatView};
ghost use Rattle.world_rules.specs.Picking.{runs_of};
ghost use Rattle.world_rules.specs.Refusals.{runs_in_all};
ghost use Rattle.entry_fits.specs.Fits.{SpecFits};

use febe_data::bounds::MOST_ITEMS;
use febe_data::{Span, Spec};
use std::alloc::Global;
use world_rules::{Find, LookUp, WorldError, three_runs};

/// Whether all the spans end at an address.
fn spans_fit(spans: &[Span]) -> bool
    ensures { IsTrue result ↔ All SpanFits spans.now }
{
    for span in spans {
        if !span.fits() {
            return false;
        }
    }
    true
}

/// Whether the documents that the specs name are there, and their spans end at an address.
pub(crate) fn specs_fit<W: LookUp>(world: &W, specs: &[Spec]) -> bool
    ensures { (view : FlatView) → W.stands world.now view → IsTrue result ↔ All (SpecFits view.world) (map plain_spec specs.now) }
{
    for spec in specs {
        if !world.has_document(&spec.document) {
            return false;
        }
        if !spans_fit(spec.spans.as_slice()) {
            return false;
        }
    }
    true
}

/// Whether the specs pick as many runs as a request may work on, or fewer.
#[tactic(auto, using(crate::proofs::Few::counted))]
pub(crate) fn are_few_runs<W: Find>(
    world: &W,
    alloc: Global,
    specs: &[Spec],
) -> Result<bool, WorldError>
    ensures { (view : FlatView) → W.stands world.now view → IfOk result (λ few. IsTrue few ↔ length (runs_of view.world (map plain_spec specs.now)) ≤ 65536) }
{
    let Some(_runs) = world.runs_up_to(alloc, specs, MOST_ITEMS as usize)? else {
        return Ok(false);
    };
    Ok(true)
}

/// Whether three lists of specs together pick as many runs as a request may work on, or fewer.
#[tactic(auto, using(crate::proofs::Few::counted))]
pub(crate) fn are_few_in_all<W: Find>(
    world: &W,
    alloc: Global,
    from: &[Spec],
    to: &[Spec],
    three: &[Spec],
) -> Result<bool, WorldError>
    ensures { (view : FlatView) → W.stands world.now view → IfOk result (λ few. IsTrue few ↔ runs_in_all view.world (map plain_spec from.now) (map plain_spec to.now) (map plain_spec three.now) ≤ 65536) }
{
    let Some(_runs) = three_runs(world, alloc, from, to, three)? else {
        return Ok(false);
    };
    Ok(true)
}
