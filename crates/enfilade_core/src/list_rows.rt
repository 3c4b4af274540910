//! The rows of trees, gone through.
ghost use Rattle.std.specs.Prelude.{◌≡◌, ◌<◌, ◌++◌, [], map, length, All, IfOk, OnOk};
ghost use Rattle.enfilade_core.specs.Rows.{moved, rows_of};
ghost use Rattle.enfilade_core.specs.Axes.{IsWellFormedRow};
ghost use Rattle.enfilade_core.specs.Plain.{plain_row};
ghost use Rattle.enfilade_core.specs.Exchange.{IsWellFormedAt};

use crate::arena::Arena;
use crate::move_children::row_moved;
use crate::plane::Plane;
use crate::tree::{Children, Node, Row};
use std::alloc::Global;
use tumbler::{List, Memory, Tumbler};

/// Rows, moved on both axes, go behind others.
pub(crate) fn append_moved<P: Plane>(
    alloc: Global,
    rows: &[Row<P::Leaf>],
    first: &Tumbler,
    second: &Tumbler,
    into: &mut List<Row<P::Leaf>>,
) -> Result<(), Memory>
    requires { All (IsWellFormedRow P.widths) (map (moved first.now second.now) (map (plain_row P.plain) rows.now)) }
    ensures { OnOk result (map (plain_row P.plain) into.new.items ≡ map (plain_row P.plain) into.old.items ++ map (moved first.now second.now) (map (plain_row P.plain) rows.now)) }
{
    for row in rows {
        into.push(row_moved::<P>(alloc, row, first, second)?)?;
    }
    Ok(())
}

impl<P: Plane> Arena<P> {
    /// Appends the rows of a node, seen from a base.
    pub(crate) fn append_rows(
        &self,
        node: Node,
        first: &Tumbler,
        second: &Tumbler,
        into: &mut List<Row<P::Leaf>>,
    ) -> Result<(), Memory>
        requires { IsWellFormedAt P.widths self.now node.0 first.now second.now }
        ensures { OnOk result (map (plain_row P.plain) into.new.items ≡ map (plain_row P.plain) into.old.items ++ map (moved first.now second.now) (rows_of self.now node.0)) }
    {
        let alloc = self.allocator();
        match self.node(node) {
            Children::Bottom(rows) => {
                append_moved::<P>(alloc, rows.as_slice(), first, second, into)
            }
            Children::Inner(branches) => {
                for branch in branches.as_slice() {
                    let first = first.add(&branch.first);
                    let second = second.add(&branch.second);
                    self.append_rows(branch.node, &first, &second, into)?;
                }
                Ok(())
            }
        }
    }

    /// The rows of a tree, in order.
    pub fn rows(&self, root: Node) -> Result<List<Row<P::Leaf>>, Memory>
        requires { root.0 < length self.now }
        ensures { IfOk result (λ made. map (plain_row P.plain) made.items ≡ rows_of self.now root.0) }
    {
        let zero = Tumbler::zero(self.allocator());
        let mut rows = List::new(self.allocator());
        rows.reserve(self.leaves(root) as usize)?;
        self.append_rows(root, &zero, &zero, &mut rows)?;
        Ok(rows)
    }
}
