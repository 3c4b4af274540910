//! How many positions spans pick.
ghost use Rattle.std.specs.Prelude.{◌≡◌, ℕ, List as ListOf, ◌≤◌, length};
ghost use Rattle.tumbler.specs.Span.{SpanFits};
ghost use Rattle.poom.specs.Bounds.{IsBound};
ghost use Rattle.poom.specs.Picked.{picked_from};

use febe_data::{Span, Tumbler};

/// The first of so many positions of a part that does not come before a place, or one past the end.
#[tactic(auto, using(poom::proofs::Bounded::bounded))]
pub(crate) fn bound(part: u32, place: &Tumbler, long: u32) -> u32
    requires { long ≤ 4294967294 }
    ensures { IsBound part place.now long result }
{
    let places = place.places();
    if places.is_empty() {
        return 1;
    }
    if part < places[0] {
        return long + 1;
    }
    if places[0] < part {
        return 1;
    }
    if places.len() == 1 {
        return 1;
    }
    if long < places[1] {
        return long + 1;
    }
    if places.len() == 2 {
        return places[1];
    }
    places[1] + 1
}

/// How many of so many positions of a part a span picks.
pub(crate) fn picked_count(part: u32, span: &Span, long: u32) -> u32
    requires fits { SpanFits span.now }
    requires few { long ≤ 4294967294 }
    ensures { (addresses : ListOf (ListOf ℕ)) → long ≡ length addresses → result ≡ length (picked_from part span.now 1 addresses) }
{
    let from = bound(part, &span.start, long);
    let to = bound(part, &span.start.add(&span.width), long);
    to.saturating_sub(from)
}
