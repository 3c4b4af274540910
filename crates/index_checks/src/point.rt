//! Addresses under keys.
ghost use Rattle.std.specs.Prelude.{◌≡◌, ◌<◌, ◌≤◌, [], length};
ghost use Rattle.tumbler.specs.Places.{Fits};
ghost use Rattle.world_rules.specs.World.{content_address};
ghost use Rattle.index_checks.specs.inside.Points.{is_point_before, later_point, row_start_point, row_end_point};

use enfilade_core::Row;
use std::alloc::Global;
use tumbler::Tumbler;

/// An address under a key. Points stand by their keys, and then by their addresses.
#[derive(Clone, Copy)]
pub(crate) struct Point {
    pub key: Tumbler,
    pub place: Tumbler,
}

impl Point {
    /// The point that no point comes before.
    pub(crate) fn least(alloc: Global) -> Point
        ensures { result ≡ record { key = []; place = [] } }
    {
        Point {
            key: Tumbler::zero(alloc),
            place: Tumbler::zero(alloc),
        }
    }

    /// Whether this one comes before the other.
    pub(crate) fn is_before(&self, other: &Point) -> bool
        ensures { result ≡ is_point_before self.now other.now }
    {
        self.key
            .cmp(&other.key)
            .then(self.place.cmp(&other.place))
            .is_lt()
    }

    /// The one of two points that comes later.
    pub(crate) fn later(&self, other: &Point) -> Point
        ensures { result ≡ later_point self.now other.now }
    {
        if self.is_before(other) { *other } else { *self }
    }

    /// Where a row starts.
    pub(crate) fn start_of(row: &Row<Tumbler>) -> Point
        ensures { result ≡ row_start_point row.now }
    {
        Point {
            key: row.second.copy(),
            place: row.first.copy(),
        }
    }

    /// Where a row ends.
    pub(crate) fn end_of(row: &Row<Tumbler>) -> Point
        requires { Fits row.now.first row.now.leaf }
        ensures { result ≡ row_end_point row.now }
    {
        Point {
            key: row.second.copy(),
            place: row.first.add(&row.leaf),
        }
    }

    /// The n-th byte of a document's content.
    pub(crate) fn of_byte(key: &Tumbler, content: &Tumbler, n: u32) -> Point
        requires short { length content.now ≤ 20 }
        requires counted { 0 < n }
        ensures { result ≡ record { key = key.now; place = content_address content.now n } }
    {
        let place = content.extended(&[0, 1, n]).unwrap();
        Point {
            key: key.copy(),
            place,
        }
    }
}
