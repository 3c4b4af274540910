//! Laws of a world's condition, and of runs that meet. Each is a function that does nothing, whose contract says the law.
ghost use Rattle.std.specs.Prelude.{◌≡◌, ◌<◌, false, length};
ghost use Rattle.enfilade_core.specs.Planes.{content_widths, text_widths, key_widths};
ghost use Rattle.enfilade_balance.specs.Laws.{SettledTreesAreFull};
ghost use Rattle.tree_world.specs.Laws.{NodesAreReached, TreesAreFull, RunsMeetExactly};

use crate::world::TreeWorld;
use enfilade_balance::laws::settled_trees_are_full;
use granfilade::Granfilade;
use links::Links;
use spanfilade::Spanfilade;

/// Where a world's condition counts no node that is not reached, each node of each arena is the root of one of the trees
/// that stand there, or hangs under a node that is reached.
pub fn nodes_are_reached(world: &TreeWorld)
    ensures { NodesAreReached world.now }
{
    let _nodes = world.node_count();
}

fn contents_are_full(contents: &Granfilade)
    ensures full { SettledTreesAreFull content_widths contents.now.nodes }
    ensures there { contents.now.root < length contents.now.nodes }
{
    let (arena, _root) = contents.parts();
    settled_trees_are_full(arena);
}

fn index_is_full(index: &Spanfilade)
    ensures full { SettledTreesAreFull key_widths index.now.nodes }
    ensures there { index.now.root.0 < length index.now.nodes }
{
    let (arena, _root) = index.parts();
    settled_trees_are_full(arena);
}

fn ends_are_full(links: &Links)
    ensures from { SettledTreesAreFull key_widths links.now.from.nodes }
    ensures to { SettledTreesAreFull key_widths links.now.to.nodes }
    ensures three { SettledTreesAreFull key_widths links.now.three.nodes }
    ensures from_there { links.now.from.root.0 < length links.now.from.nodes }
    ensures to_there { links.now.to.root.0 < length links.now.to.nodes }
    ensures three_there { links.now.three.root.0 < length links.now.three.nodes }
{
    index_is_full(links.index(1));
    index_is_full(links.index(2));
    index_is_full(links.index(3));
}

/// Where no tree of a world allows a step of the balancer, each of d levels, two or more, has at least 2^d leaves.
pub fn trees_are_full(world: &TreeWorld)
    ensures { TreesAreFull world.now }
{
    contents_are_full(&world.contents);
    index_is_full(&world.index);
    ends_are_full(&world.links);
    settled_trees_are_full(world.pooms.arena());
}

/// Two runs of bytes meet, as spans of addresses, exactly where some byte is in both.
pub fn runs_meet_exactly()
    ensures { RunsMeetExactly }
{}
