//! How far the rows of an index reach.
ghost use Rattle.std.specs.Prelude.{◌≡◌, ◌+◌, ◌<◌, ◌≤◌, length, take, drop, true, false, All, IfOk};
ghost use Rattle.enfilade_core.specs.Axes.{IsWellFormedRow};
ghost use Rattle.enfilade_core.specs.Planes.{key_widths};
ghost use Rattle.index_checks.specs.inside.Order.{AreSorted};
ghost use Rattle.index_checks.specs.inside.Points.{starts_behind, AreReaches, IsReachAt};

use crate::point::Point;
use enfilade_core::Row;
use std::alloc::Global;
use tumbler::{Memory, Tumbler};

/// How far the first rows reach: none of them, one, two and so on up to all.
pub(crate) fn reaches(alloc: Global, rows: &[Row<Tumbler>]) -> Result<Vec<Point>, Memory>
    requires { All (IsWellFormedRow key_widths) rows.now }
    ensures { IfOk result (λ made. AreReaches rows.now made.items) }
{
    let mut reach = Point::least(alloc);
    let mut made = Vec::new(alloc);
    made.push(reach)?;
    for row in rows {
        reach = reach.later(&Point::end_of(row));
        made.push(reach)?;
    }
    Ok(made)
}

/// How many rows start at a point or before it.
fn count_up_to(rows: &[Row<Tumbler>], point: &Point) -> usize
    requires { AreSorted rows.now }
    ensures within { result ≤ length rows.now }
    ensures up_to { All (λ row. starts_behind point.now row ≡ false) (take result rows.now) }
    ensures behind { All (λ row. starts_behind point.now row ≡ true) (drop result rows.now) }
{
    let mut low = 0;
    let mut high = rows.len();
    while low < high {
        let middle = low + (high - low) / 2;
        if point.is_before(&Point::start_of(&rows[middle])) {
            high = middle;
            continue;
        }
        low = middle + 1;
    }
    low
}

/// How far the rows reach that start at a point or before it.
pub(crate) fn reach_at(rows: &[Row<Tumbler>], reaches: &[Point], point: &Point) -> Point
    requires sorted { AreSorted rows.now }
    requires reaches { AreReaches rows.now reaches.now }
    ensures { IsReachAt rows.now point.now result }
{
    reaches[count_up_to(rows, point)]
}
