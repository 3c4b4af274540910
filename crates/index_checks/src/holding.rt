//! Whether an index has the runs of links, and nothing else.
ghost use Rattle.std.specs.Prelude.{◌≡◌, ◌<◌, ◌↔◌, map, length, IsTrue, IfOk};
ghost use Rattle.std.specs.List.Sorted.{IsPermutation};
ghost use Rattle.enfilade_core.specs.Rows.{rows_of};
ghost use Rattle.links.specs.LinkLists.{plain_link, HoldsRuns};

use crate::runs::append_links;
use crate::sorting::{are_same, copied_rows, sorted_rows};
use enfilade_core::{Arena, KeyPlane, Node, Row};
use links::LinkRow;
use tumbler::{Memory, Tumbler};

/// Whether a tree has these rows, each as often, and no others. They may be in any order.
///
/// The tree's rows are counted first, so that for a tree with more of them no memory is taken.
fn has_rows(index: &Arena<KeyPlane>, root: Node, wanted: Vec<Row<Tumbler>>) -> Result<bool, Memory>
    requires { root.0 < length index.now }
    ensures { IfOk result (λ has. IsTrue has ↔ IsPermutation wanted.items (rows_of index.now root.0)) }
{
    if index.leaves(root) != wanted.len() as u64 {
        return Ok(false);
    }
    let held = index.rows(root)?;
    let unsorted = held.as_slice();
    let copied = copied_rows(index.allocator(), unsorted)?;
    let sorted = sorted_rows(copied)?;
    let asked = sorted_rows(wanted)?;
    let left = asked.as_slice();
    let right = sorted.as_slice();
    Ok(are_same(left, right))
}

/// Whether the index of end 1, 2 or 3 has exactly the runs that links have at that end: a row for each run, under the
/// link's id, as often as the run is there.
///
/// It takes memory and n log n time for the n runs, however many rows the tree of a shared arena has.
pub fn hold_runs(
    end: u32,
    links: &[LinkRow],
    index: &Arena<KeyPlane>,
    root: Node,
) -> Result<bool, Memory>
    requires { root.0 < length index.now }
    ensures { IfOk result (λ holds. IsTrue holds ↔ HoldsRuns end (map plain_link links.now) (record { nodes = index.now; root = root })) }
{
    let alloc = index.allocator();
    let mut wanted = Vec::new(alloc);
    if !append_links(end, links, &mut wanted)? {
        return Ok(false);
    }
    has_rows(index, root, wanted)
}
