//! Whether the rows of an index have all bytes of a run.
ghost use Rattle.std.specs.Prelude.{◌≡◌, ◌↔◌, ℕ, ◌+◌, ◌^◌, ◌<◌, ◌≤◌, nat_lt, length, IsTrue};
ghost use Rattle.world_rules.specs.World.{content_address};
ghost use Rattle.links.specs.LinkLists.{IsRun};
ghost use Rattle.index_checks.specs.inside.Order.{AreSorted};
ghost use Rattle.index_checks.specs.inside.Points.{is_point_before, AreReaches, IsRunCoveredBy};

use crate::point::Point;
use crate::reaches::reach_at;
use enfilade_core::Row;
use febe_data::Run;
use tumbler::Tumbler;

/// The first of some bytes of a document's content that does not come before a reach, or the end of these bytes.
fn first_beyond(key: &Tumbler, content: &Tumbler, from: u32, to: u32, reach: &Point) -> u32
    requires short { length content.now ≤ 20 }
    requires counted { 0 < from }
    requires some { from ≤ to }
    ensures from { from ≤ result }
    ensures to { result ≤ to }
    ensures each { (n : ℕ) → from ≤ n → n < to → is_point_before (record { key = key.now; place = content_address content.now n }) reach.now ≡ nat_lt n result }
{
    let mut low = from;
    let mut high = to;
    while low < high {
        let middle = low + (high - low) / 2;
        if Point::of_byte(key, content, middle).is_before(reach) {
            low = middle + 1;
            continue;
        }
        high = middle;
    }
    low
}

/// Whether rows, of which it is told how far they reach, have all bytes of a run for its origin.
///
/// The bytes up to a reach go together, so the time goes by how often the reach rises within the run.
pub(crate) fn is_run_covered(rows: &[Row<Tumbler>], reaches: &[Point], run: &Run) -> bool
    requires sorted { AreSorted rows.now }
    requires reaches { AreReaches rows.now reaches.now }
    requires run { IsRun run.now }
    ensures { IsTrue result ↔ IsRunCoveredBy rows.now run.now }
{
    let end = run.first + run.length;
    let mut at = run.first;
    while at < end {
        let reach = reach_at(
            rows,
            reaches,
            &Point::of_byte(&run.origin, &run.content, at),
        );
        let next = first_beyond(&run.origin, &run.content, at, end, &reach);
        if next == at {
            return false;
        }
        at = next;
    }
    true
}
