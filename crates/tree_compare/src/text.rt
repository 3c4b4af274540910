//! Whether two documents show the same, however their trees are cut into rows and nodes.
ghost use Rattle.std.specs.Prelude.{◌≡◌, ◌↔◌, All, IsTrue, IfOk};
ghost use Rattle.enfilade_core.specs.Rows.{rows_of};
ghost use Rattle.poom.specs.Laid.{IsRoot};
ghost use Rattle.poom.specs.Positions.{IsPieceRow};
ghost use Rattle.tree_compare.specs.RowAddresses.{addresses_of, ShowSame};

use crate::address::meet;
use crate::place::Place;
use enfilade_core::{Arena, Node, Row, TextPlane};
use tumbler::Memory;

/// Whether rows show the same addresses as others, one after another.
///
/// They are gone through side by side, the lesser count of addresses at a time.
fn same_addresses(one: &[Row<u32>], other: &[Row<u32>]) -> bool
    requires one { All IsPieceRow one.now }
    requires other { All IsPieceRow other.now }
    ensures { IsTrue result ↔ addresses_of one.now ≡ addresses_of other.now }
{
    let mut left = Place::first();
    let mut right = Place::first();
    while left.item < one.len() {
        if right.item == other.len() {
            return false;
        }
        let here = &one[left.item];
        let there = &other[right.item];
        if !meet(&here.second, left.within, &there.second, right.within) {
            return false;
        }
        let long = here.leaf as usize;
        let further = there.leaf as usize;
        let count = (long - left.within).min(further - right.within);
        left = left.behind(count, long);
        right = right.behind(count, further);
    }
    right.item == other.len()
}

/// Whether two documents show the same text and the same links. Their trees may be of one arena or of two.
///
/// The time goes by the rows of both, and so does the memory that is taken.
pub fn same_text(
    one: &Arena<TextPlane>,
    root: Node,
    other: &Arena<TextPlane>,
    other_root: Node,
) -> Result<bool, Memory>
    requires one { IsRoot one.now root.0 }
    requires other { IsRoot other.now other_root.0 }
    ensures { IfOk result (λ same. IsTrue same ↔ ShowSame (rows_of one.now root.0) (rows_of other.now other_root.0)) }
{
    let rows = one.rows(root)?;
    let others = other.rows(other_root)?;
    Ok(same_addresses(rows.as_slice(), others.as_slice()))
}
