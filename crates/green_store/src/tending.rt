//! Trees are put right step by step, in a store and while one is built.
ghost use Rattle.std.specs.Prelude.{◌≡◌, ◌⊎◌, ◌+◌, ◌*◌, ◌<◌, false, IfOk, OnErr};
ghost use Rattle.world_rules.specs.FlatView.{FlatView};
ghost use Rattle.tree_world.specs.Nodes.{AllGrown};
ghost use Rattle.green_store.specs.inside.{IsTended, IsPutOffFor, IsSweeping};

use febe_data::Memory;
use std::alloc::Global;
use tree_world::Rebalance;

/// What one step has put right.
#[derive(Clone, Copy)]
pub(crate) enum Tended {
    /// A tree, by one step of the balancer.
    Balanced,
    /// The nodes that no tree reaches are gone.
    Swept,
    /// Nothing.
    Idle,
}

/// Makes one step of the balancer where some tree allows one. Where none does, it lets go of the nodes that no tree reaches,
/// if the trees have over twice as many nodes as they had after the last sweep or at first, and 1,024 more.
pub(crate) fn tend<W: Rebalance>(
    alloc: Global,
    world: &mut W,
    base: &mut u64,
) -> Result<Tended, Memory>
    ensures stands { (view : FlatView) → W.stands world.old view → W.stands world.new view }
    ensures tended { IfOk result (λ done. IsTended (W.condition world.old) base.old done (W.condition world.new) base.new) }
    ensures err { OnErr result (IsPutOffFor (W.condition world.old) base.old (W.condition world.new) base.new) }
    ensures grown { IfOk result (λ done. (done ≡ Tended.Swept) ⊎ AllGrown (W.world_nodes world.old) (W.world_nodes world.new)) }
{
    if world.balance()? {
        return Ok(Tended::Balanced);
    }
    if sweep(alloc, world, base)? {
        return Ok(Tended::Swept);
    }
    Ok(Tended::Idle)
}

/// Lets go of the nodes that no tree reaches, if the trees have over twice as many nodes as they had after the last sweep or
/// at first, and 1,024 more, and tells whether it did.
pub(crate) fn sweep<W: Rebalance>(
    alloc: Global,
    world: &mut W,
    base: &mut u64,
) -> Result<bool, Memory>
    ensures stands { (view : FlatView) → W.stands world.old view → W.stands world.new view }
    ensures swept { IfOk result (λ swept. IsSweeping (W.condition world.old) base.old swept (W.condition world.new) base.new) }
    ensures err { OnErr result ((2 * base.old + 1024 < (W.condition world.old).nodes) × (W.condition world.new ≡ W.condition world.old) × (base.new ≡ base.old)) }
    ensures nodes { IfOk result (λ swept. swept ≡ false → W.world_nodes world.new ≡ W.world_nodes world.old) }
    ensures err_nodes { OnErr result (W.world_nodes world.new ≡ W.world_nodes world.old) }
{
    if u128::from(world.nodes()) <= 2 * u128::from(*base) + 1_024 {
        return Ok(false);
    }
    world.sweep(alloc)?;
    *base = world.nodes();
    Ok(true)
}
