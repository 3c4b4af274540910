//! Laws of what is reached. Each is a function that does nothing, whose contract says the law.
ghost use Rattle.enfilade_sweep.specs.Laws.{ReachedAreCounted, NoneIsLeft};

use enfilade_core::laws::nodes_are_well_formed;
use enfilade_core::{Arena, Plane};

/// The count of reached nodes is exact: what hangs under a node has a lesser number, so no way from a root has more steps
/// than the arena has nodes. Where it leaves none over, each node is reached.
pub fn reached_are_counted<P: Plane>(arena: &Arena<P>)
    ensures exact { ReachedAreCounted arena.now }
    ensures none_left { NoneIsLeft arena.now }
{
    nodes_are_well_formed(arena);
}
