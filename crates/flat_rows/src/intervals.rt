//! Text positions as the fewest intervals.
ghost use Rattle.std.specs.Prelude.{◌≡◌, ◌+◌, ◌==◌, map, All, IfOk};
ghost use Rattle.febe_data.specs.Validity.{IsSpan};
ghost use Rattle.world_rules.specs.Picking.{stretches_on, interval, intervals};

use febe_data::{List, Span};
use std::alloc::Global;
use world_rules::{WorldError, span_from};

/// Positions that follow each other.
#[derive(Clone, Copy)]
struct OpenStretch {
    first: u32,
    last: u32,
    count: u32,
}

impl OpenStretch {
    fn new(position: u32) -> OpenStretch
        ensures { result ≡ record { first = position; last = position; count = 1 } }
    {
        OpenStretch {
            first: position,
            last: position,
            count: 1,
        }
    }

    fn is_followed_by(self, position: u32) -> bool
        ensures { result ≡ (position == self.last + 1) }
    {
        self.last < position && position - self.last == 1
    }

    /// With the position that follows.
    fn extended(self, position: u32) -> Result<OpenStretch, WorldError>
        ensures { IfOk result (λ longer. longer ≡ record { first = self.first; last = position; count = self.count + 1 }) }
    {
        Ok(OpenStretch {
            first: self.first,
            last: position,
            count: self.count.checked_add(1).ok_or(WorldError::TooGreat)?,
        })
    }

    fn interval(self, alloc: Global) -> Result<Span, WorldError>
        ensures value { IfOk result (λ span. span ≡ interval (record { first = self.first; count = self.count })) }
        ensures valid { IfOk result IsSpan }
    {
        span_from(alloc, 1, self.first, self.count)
    }
}

/// The intervals of a position and the positions behind it.
fn intervals_from(alloc: Global, first: u32, rest: &[u32]) -> Result<List<Span>, WorldError>
    ensures items { IfOk result (λ made. made.items ≡ map interval (stretches_on (λ a b. b == a + 1) first first 1 rest.now)) }
    ensures valid { IfOk result (λ made. All IsSpan made.items) }
{
    let mut made = List::new(alloc);
    let mut open = OpenStretch::new(first);
    for position in rest {
        if open.is_followed_by(*position) {
            open = open.extended(*position)?;
        } else {
            made.push(open.interval(alloc)?)?;
            open = OpenStretch::new(*position);
        }
    }
    made.push(open.interval(alloc)?)?;
    Ok(made)
}

/// The fewest intervals that hold the positions.
pub fn intervals(alloc: Global, positions: &[u32]) -> Result<List<Span>, WorldError>
    ensures items { IfOk result (λ made. made.items ≡ intervals positions.now) }
    ensures valid { IfOk result (λ made. All IsSpan made.items) }
{
    match positions.split_first() {
        Some((first, rest)) => intervals_from(alloc, *first, rest),
        None => Ok(List::new(alloc)),
    }
}
