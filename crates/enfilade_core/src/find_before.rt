//! The last row of a tree that comes before a coordinate.
ghost use Rattle.std.specs.Prelude.{◌≡◌, ◌⊎◌, ◌+◌, ◌<◌, map, min, drop, length, All, Contains, IfSome, IfNone, Some, None, true};
ghost use Rattle.tumbler.specs.Places.{comes_before};
ghost use Rattle.enfilade_core.specs.Rows.{Branches, moved, branch_rows, rows_in, rows_table, rows_of};
ghost use Rattle.enfilade_core.specs.Axes.{IsWellFormedRow, IsWellFormedRows};
ghost use Rattle.enfilade_core.specs.WellFormed.{IsWellFormed, IsWellFormedPart};
ghost use Rattle.enfilade_core.specs.Summary.{height_of, depth_of};
ghost use Rattle.enfilade_core.specs.Plain.{plain_row, found_row};
ghost use Rattle.enfilade_core.specs.Edits.{last_before};
ghost use Rattle.enfilade_core.specs.Following.{first_coordinate};
ghost use Rattle.enfilade_core.specs.Exchange.{IsWellFormedAt, branch_at, IsChosen};

use crate::arena::Arena;
use crate::exchange::count_before;
use crate::laws::nodes_are_well_formed;
use crate::move_children::branch_moved;
use crate::plane::Plane;
use crate::rebuild_node::seen_from;
use crate::tree::{Branch, Children, Node, Row};
use tumbler::Tumbler;

/// A row of a tree: where it stands, and its leaf.
#[derive(Drop)]
pub struct RowAt<'a, L> {
    /// Where it stands on the first axis, from the tree's origin.
    pub first: Tumbler,
    /// Where it stands on the second axis, from the tree's origin.
    pub second: Tumbler,
    pub leaf: &'a L,
    /// How many nodes were opened on the way, up to 2^32 - 1.
    pub visits: u32,
}

/// The last of some rows, seen from a base, that comes before a coordinate, found by so many visits.
fn last_row<'a, P: Plane>(
    rows: &'a [Row<P::Leaf>],
    first: &Tumbler,
    second: &Tumbler,
    at: &Tumbler,
    visits: u32,
) -> Option<RowAt<'a, P::Leaf>>
    requires own { IsWellFormedRows P.widths (map (plain_row P.plain) rows.now) }
    requires well_formed { All (IsWellFormedRow P.widths) (map (moved first.now second.now) (map (plain_row P.plain) rows.now)) }
    ensures found { IfSome result (λ found. last_before at.now (map (moved first.now second.now) (map (plain_row P.plain) rows.now)) ≡ Some (found_row P.plain found)) }
    ensures none { IfNone result (last_before at.now (map (moved first.now second.now) (map (plain_row P.plain) rows.now)) ≡ None) }
    ensures visits { IfSome result (λ found. found.visits ≡ visits) }
{
    let count = count_before(rows, &seen_from(at, first));
    if count == 0 {
        return None;
    }
    let last = count - 1;
    let row = &rows[last];
    Some(RowAt {
        first: first.add(&row.first),
        second: second.add(&row.second),
        leaf: &row.leaf,
        visits,
    })
}

impl<P: Plane> Arena<P> {
    /// The branch that `chosen` finds. The last one is looked at first, since often the end is asked for.
    fn chosen_from_end(&self, branches: &[Branch], at: &Tumbler) -> usize
        requires well_formed { IsWellFormed P.widths self.now (Branches branches.now) }
        ensures is { IsChosen self.now branches.now at.now result }
        ensures here { (result ≡ 0) ⊎ (comes_before (first_coordinate (rows_in (rows_table self.now) (Branches (drop result branches.now)))) at.now ≡ true) }
    {
        let last = branches.len() - 1;
        if self.starts_before(&branches[last], at) {
            return last;
        }
        self.chosen(branches, at)
    }

    /// The last of some branches, seen from a base, that has a row before a coordinate. Only that one is moved.
    fn last_branch(
        &self,
        branches: &[Branch],
        first: &Tumbler,
        second: &Tumbler,
        at: &Tumbler,
    ) -> Option<Branch>
        requires well_formed { IsWellFormed P.widths self.now (Branches branches.now) }
        requires parts { All (IsWellFormedPart P.widths self.now) (map (branch_at first.now second.now) branches.now) }
        ensures found { IfSome result (λ found. last_before at.now (rows_in (rows_table self.now) (Branches (map (branch_at first.now second.now) branches.now))) ≡ last_before at.now (branch_rows (rows_table self.now) found)) }
        ensures one { IfSome result (λ found. Contains (map (branch_at first.now second.now) branches.now) found) }
        ensures none { IfNone result (last_before at.now (rows_in (rows_table self.now) (Branches (map (branch_at first.now second.now) branches.now))) ≡ None) }
    {
        let seen = seen_from(at, first);
        let k = self.chosen_from_end(branches, &seen);
        let branch = &branches[k];
        if !self.starts_before(branch, &seen) {
            return None;
        }
        Some(branch_moved(branch, first, second))
    }

    /// The last row below a node, seen from a base, that comes before a coordinate, where so many nodes were opened above.
    fn row_below(
        &self,
        node: Node,
        first: &Tumbler,
        second: &Tumbler,
        at: &Tumbler,
        visits: u32,
    ) -> Option<RowAt<'_, P::Leaf>>
        requires { IsWellFormedAt P.widths self.now node.0 first.now second.now }
        ensures found { IfSome result (λ found. last_before at.now (map (moved first.now second.now) (rows_of self.now node.0)) ≡ Some (found_row P.plain found)) }
        ensures none { IfNone result (last_before at.now (map (moved first.now second.now) (rows_of self.now node.0)) ≡ None) }
        ensures visits { IfSome result (λ found. found.visits ≡ min (visits + height_of P.widths self.now node.0 + 1) 4294967295) }
    {
        nodes_are_well_formed(self);
        let visits = visits.saturating_add(1);
        match self.node(node) {
            Children::Bottom(rows) => last_row::<P>(rows.as_slice(), first, second, at, visits),
            Children::Inner(branches) => {
                let branch = self.last_branch(branches.as_slice(), first, second, at)?;
                self.row_below(branch.node, &branch.first, &branch.second, at, visits)
            }
        }
    }

    /// The last row of a tree that comes before a coordinate on the first axis. It goes down one path, and takes
    /// no memory.
    pub fn row_before(&self, root: Node, at: &Tumbler) -> Option<RowAt<'_, P::Leaf>>
        requires { root.0 < length self.now }
        ensures found { IfSome result (λ found. last_before at.now (rows_of self.now root.0) ≡ Some (found_row P.plain found)) }
        ensures none { IfNone result (last_before at.now (rows_of self.now root.0) ≡ None) }
        ensures visits { IfSome result (λ found. found.visits ≡ min (depth_of P.widths self.now root.0) 4294967295) }
    {
        let zero = Tumbler::zero(self.allocator());
        self.row_below(root, &zero, &zero, at, 0)
    }
}
