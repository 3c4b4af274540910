//! What a search looks for.
ghost use Rattle.std.specs.Prelude.{◌≡◌};
ghost use Rattle.tumbler.specs.Places.{Fits, sum};
ghost use Rattle.enfilade_core.specs.Plain.{plain_row};
ghost use Rattle.enfilade_search.specs.Meeting.{touches};
ghost use Rattle.enfilade_search.specs.Sought.{side_by, width_by, past_by, is_past, can_hold};

use enfilade_core::{Branch, Plane, Row};
use tumbler::Tumbler;

/// What of a row has to lie in the range.
#[derive(Clone, Copy, Debug, PartialEq, Eq)]
pub(crate) enum By {
    /// Its coordinate on the first axis.
    Place,
    /// Some of what it takes up on the first axis.
    First,
    /// Some of what it takes up on the second axis.
    Second,
}

/// The range from one coordinate on and before another, and what of a row has to lie in it.
#[derive(Drop)]
pub(crate) struct Sought {
    pub from: Tumbler,
    pub to: Tumbler,
    pub by: By,
}

impl Sought {
    /// Whether something of this width at this coordinate lies in the range. What has no width is still at its place.
    #[tactic(auto, using(crate::proofs::Touching::touching))]
    fn touches(&self, coordinate: &Tumbler, width: &Tumbler) -> bool
        requires { Fits coordinate.now width.now }
        ensures { result ≡ touches self.now.from self.now.to coordinate.now width.now }
    {
        if width.places().is_empty() {
            return !coordinate.is_before(&self.from) && coordinate.is_before(&self.to);
        }
        let start = if self.from.is_before(coordinate) {
            coordinate
        } else {
            &self.from
        };
        start.is_before(&self.to) && start.is_before(&coordinate.add(width))
    }

    /// Whether the row is sought, where it stands at these places.
    pub(crate) fn is_met<P: Plane>(
        &self,
        row: &Row<P::Leaf>,
        first: &Tumbler,
        second: &Tumbler,
    ) -> bool
        requires first_fits { Fits first.now (P.widths.first (plain_row P.plain row.now)) }
        requires second_fits { Fits second.now (P.widths.second (plain_row P.plain row.now)) }
        ensures { result ≡ touches self.now.from self.now.to (side_by self.now.by first.now second.now) (width_by P.widths self.now.by (plain_row P.plain row.now)) }
    {
        match self.by {
            By::Place => self.touches(first, &Tumbler::zero(first.allocator())),
            By::First => self.touches(first, &P::first_width(row)),
            By::Second => self.touches(second, &P::second_width(row)),
        }
    }

    /// Whether no row can be sought that stands at this coordinate or after it on the first axis.
    pub(crate) fn is_past(&self, first: &Tumbler) -> bool
        ensures { result ≡ is_past self.now first.now }
    {
        match self.by {
            By::Place | By::First => !first.is_before(&self.to),
            By::Second => false,
        }
    }

    /// Whether a row below the child can be sought, where the child's origin is at `first` on the first axis, and its
    /// node is seen from `second` on the second one.
    pub(crate) fn can_be_below(&self, child: &Branch, first: &Tumbler, second: &Tumbler) -> bool
        requires first_fits { Fits first.now child.now.first_extent }
        requires second_origin { Fits second.now child.now.second }
        requires second_fits { Fits (sum second.now child.now.second) child.now.second_extent }
        ensures { result ≡ can_hold self.now (side_by self.now.by first.now (sum second.now child.now.second)) (side_by self.now.by child.now.first_extent child.now.second_extent) }
    {
        match self.by {
            By::Place | By::First => self.can_hold(first, &child.first_extent),
            By::Second => self.can_hold(&second.add(&child.second), &child.second_extent),
        }
    }

    /// Whether a row can be sought that is nowhere before the origin and ends nowhere after the extent from there.
    fn can_hold(&self, origin: &Tumbler, extent: &Tumbler) -> bool
        requires { Fits origin.now extent.now }
        ensures { result ≡ can_hold self.now origin.now extent.now }
    {
        !origin.add(extent).is_before(&self.from) && origin.is_before(&self.to)
    }
}
