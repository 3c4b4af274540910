//! Whether two trees hold the same bytes, however they are cut into rows and nodes.
ghost use Rattle.std.specs.Prelude.{◌≡◌, ℕ, List as ListOf, ◌++◌, ◌↔◌, map, All, IsTrue, IfOk, OnOk};
ghost use Rattle.enfilade_core.specs.Rows.{rows_of};
ghost use Rattle.enfilade_core.specs.Plain.{plain_row};
ghost use Rattle.enfilade_core.specs.Planes.{content_widths, plain_text};
ghost use Rattle.enfilade_search.specs.Sought.{FitsAt};
ghost use Rattle.granfilade.specs.Content.{content};
ghost use Rattle.tree_compare.specs.Stretches.{laid_stretches, IsStretch, laid_at, LiesAt};

use crate::stretch::{Stretch, same_stretches};
use enfilade_core::laws::nodes_are_well_formed;
use enfilade_core::{Arena, Children, ContentPlane, Node, Row};
use granfilade::Granfilade;
use tumbler::{List, Memory, Text, Tumbler};

/// Adds the bytes of rows, which are seen from a base.
fn push_rows<'a>(
    rows: &'a [Row<Text>],
    first: &Tumbler,
    into: &mut List<Stretch<'a>>,
) -> Result<(), Memory>
    requires { All (LiesAt first.now) (map (plain_row plain_text) rows.now) }
    ensures laid { OnOk result (laid_stretches into.new.items ≡ laid_stretches into.old.items ++ laid_at first.now (map (plain_row plain_text) rows.now)) }
    ensures each { All IsStretch into.old.items → OnOk result (All IsStretch into.new.items) }
{
    for row in rows {
        into.push(Stretch {
            start: first.add(&row.first),
            bytes: row.leaf.as_slice(),
        })?;
    }
    Ok(())
}

/// Adds the bytes of the rows below a node, which is seen from a base.
fn push_below<'a>(
    arena: &'a Arena<ContentPlane>,
    node: Node,
    first: &Tumbler,
    into: &mut List<Stretch<'a>>,
) -> Result<(), Memory>
    requires { (second : ListOf ℕ) × FitsAt content_widths arena.now node.0 first.now second }
    ensures laid { OnOk result (laid_stretches into.new.items ≡ laid_stretches into.old.items ++ laid_at first.now (rows_of arena.now node.0)) }
    ensures each { All IsStretch into.old.items → OnOk result (All IsStretch into.new.items) }
{
    nodes_are_well_formed(arena);
    match arena.node(node) {
        Children::Bottom(rows) => push_rows(rows.as_slice(), first, into),
        Children::Inner(branches) => {
            for child in branches.as_slice() {
                push_below(arena, child.node, &first.add(&child.first), into)?;
            }
            Ok(())
        }
    }
}

/// The bytes of a tree, row by row.
fn stretches(tree: &Granfilade) -> Result<List<Stretch<'_>>, Memory>
    ensures laid { IfOk result (λ made. laid_stretches made.items ≡ content tree.now) }
    ensures each { IfOk result (λ made. All IsStretch made.items) }
{
    let (arena, root) = tree.parts();
    let zero = Tumbler::zero(arena.allocator());
    let mut made = List::new(arena.allocator());
    made.reserve(arena.leaves(root) as usize)?;
    push_below(arena, root, &zero, &mut made)?;
    Ok(made)
}

/// Whether two trees hold the same bytes at the same addresses.
///
/// No byte is copied: the time goes by the rows of both and by the bytes up to the first that differ, the memory that is
/// taken by the rows alone.
pub fn same_bytes(one: &Granfilade, other: &Granfilade) -> Result<bool, Memory>
    ensures { IfOk result (λ same. IsTrue same ↔ content one.now ≡ content other.now) }
{
    let left = stretches(one)?;
    let right = stretches(other)?;
    Ok(same_stretches(left.as_slice(), right.as_slice()))
}
