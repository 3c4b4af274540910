//! The runs of three spec sets, which are counted together.
ghost use Rattle.std.specs.Prelude.{◌≡◌, map, true, false, IfOk, IfSome, IfNone};
ghost use Rattle.febe_data.specs.Plain.{plain_spec};
ghost use Rattle.world_rules.specs.FlatView.{FlatView};
ghost use Rattle.world_rules.specs.Picking.{runs_of};
ghost use Rattle.world_rules.specs.Refusals.{is_too_long, runs_in_all};

use crate::errors::WorldError;
use crate::lookups::{Find, WantedRuns};
use febe_data::Spec;
use febe_data::bounds::MOST_ITEMS;
use std::alloc::Global;

/// The runs that three spec sets pick, where they are together as many as a request may work on. It stops where they are
/// more.
#[tactic(auto, using(crate::proofs::ThreeRuns::counted))]
pub fn three_runs<W: Find>(
    world: &W,
    alloc: Global,
    from: &[Spec],
    to: &[Spec],
    three: &[Spec],
) -> Result<Option<WantedRuns>, WorldError>
    ensures from { (view : FlatView) → W.stands world.now view → IfOk result (λ found. IfSome found (λ runs. runs.from.items ≡ runs_of view.world (map plain_spec from.now))) }
    ensures to { (view : FlatView) → W.stands world.now view → IfOk result (λ found. IfSome found (λ runs. runs.to.items ≡ runs_of view.world (map plain_spec to.now))) }
    ensures three { (view : FlatView) → W.stands world.now view → IfOk result (λ found. IfSome found (λ runs. runs.three.items ≡ runs_of view.world (map plain_spec three.now))) }
    ensures few { (view : FlatView) → W.stands world.now view → IfOk result (λ found. IfSome found (λ runs. is_too_long (runs_in_all view.world (map plain_spec from.now) (map plain_spec to.now) (map plain_spec three.now)) ≡ false)) }
    ensures many { (view : FlatView) → W.stands world.now view → IfOk result (λ found. IfNone found (is_too_long (runs_in_all view.world (map plain_spec from.now) (map plain_spec to.now) (map plain_spec three.now)) ≡ true)) }
{
    let most = MOST_ITEMS as usize;
    let Some(from) = world.runs_up_to(alloc, from, most)? else {
        return Ok(None);
    };
    let left = most - from.len();
    let Some(to) = world.runs_up_to(alloc, to, left)? else {
        return Ok(None);
    };
    let Some(three) = world.runs_up_to(alloc, three, left - to.len())? else {
        return Ok(None);
    };
    Ok(Some(WantedRuns { from, to, three }))
}
