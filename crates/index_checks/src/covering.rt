//! Whether an index has all bytes that documents show.
ghost use Rattle.std.specs.Prelude.{◌≡◌, ◌<◌, ◌↔◌, length, All, IsTrue, IfOk};
ghost use Rattle.enfilade_core.specs.Axes.{IsWellFormedRow};
ghost use Rattle.enfilade_core.specs.Planes.{key_widths};
ghost use Rattle.links.specs.LinkLists.{IsRun};
ghost use Rattle.index_checks.specs.Covered.{IsRunCovered};
ghost use Rattle.index_checks.specs.inside.Order.{AreSorted};
ghost use Rattle.index_checks.specs.inside.Points.{IsRunCoveredBy};

use crate::reaches::reaches;
use crate::run_covering::is_run_covered;
use crate::sorting::{copied_rows, sorted_rows};
use enfilade_core::{Arena, KeyPlane, Node, Row};
use febe_data::Run;
use std::alloc::Global;
use tumbler::{Memory, Tumbler};

/// Whether rows in order have all bytes of runs, each for the document that shows it.
fn rows_cover(alloc: Global, rows: &[Row<Tumbler>], shown: &[Run]) -> Result<bool, Memory>
    requires sorted { AreSorted rows.now }
    requires well_formed { All (IsWellFormedRow key_widths) rows.now }
    requires runs { All IsRun shown.now }
    ensures { IfOk result (λ covered. IsTrue covered ↔ All (IsRunCoveredBy rows.now) shown.now) }
{
    let reaches = reaches(alloc, rows)?;
    for run in shown {
        if !is_run_covered(rows, reaches.as_slice(), run) {
            return Ok(false);
        }
    }
    Ok(true)
}

/// Whether an index has the bytes of all runs, each for the document that shows it, which is the run's origin. Spans of
/// the index may overlap and end anywhere, and it may have more.
///
/// The index's rows are sorted once for all documents.
pub fn are_covered(index: &Arena<KeyPlane>, root: Node, shown: &[Run]) -> Result<bool, Memory>
    requires root { root.0 < length index.now }
    requires runs { All IsRun shown.now }
    ensures { IfOk result (λ covered. IsTrue covered ↔ All (IsRunCovered (record { nodes = index.now; root = root })) shown.now) }
{
    let alloc = index.allocator();
    let held = index.rows(root)?;
    let unsorted = held.as_slice();
    let copied = copied_rows(alloc, unsorted)?;
    let sorted = sorted_rows(copied)?;
    let rows = sorted.as_slice();
    rows_cover(alloc, rows, shown)
}
