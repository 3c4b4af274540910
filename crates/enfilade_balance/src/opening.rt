//! The children of a node, at their places.
ghost use Rattle.std.specs.Prelude.{◌≡◌, IfOk};
ghost use Rattle.enfilade_core.specs.Rows.{node_at};
ghost use Rattle.enfilade_core.specs.Exchange.{IsWellFormedAt, IsOpened};
ghost use Rattle.enfilade_core.specs.Plain.{shape};
ghost use Rattle.enfilade_balance.specs.OneStep.{children_at};
ghost use Rattle.enfilade_balance.specs.Path.{StandsAs};

use enfilade_core::{Arena, Children, Node, Plane, branches_moved, rows_moved};
use tumbler::{Memory, Tumbler};

/// The children of a node, moved to where they stand from a base.
pub(crate) fn opened<P: Plane>(
    arena: &Arena<P>,
    node: Node,
    first: &Tumbler,
    second: &Tumbler,
) -> Result<Children<P::Leaf>, Memory>
    requires { IsWellFormedAt P.widths arena.now node.0 first.now second.now }
    ensures opened { IfOk result (λ made. IsOpened P.widths arena.now node.0 first.now second.now (shape P.plain made)) }
    ensures is { IfOk result (λ made. shape P.plain made ≡ children_at first.now second.now (node_at arena.now node.0)) }
    ensures stands { IfOk result (λ made. StandsAs arena.now node.0 (shape P.plain made)) }
{
    let alloc = arena.allocator();
    match arena.node(node) {
        Children::Bottom(rows) => {
            let moved = rows_moved::<P>(alloc, rows.as_slice(), first, second)?;
            Ok(Children::Bottom(moved))
        }
        Children::Inner(branches) => {
            let moved = branches_moved(alloc, branches.as_slice(), first, second)?;
            Ok(Children::Inner(moved))
        }
    }
}
