//! Spans: the places from a start up to an end.
ghost use Rattle.std.specs.Prelude.{◌≡◌, ℕ, ◌≤◌, ◌<◌, ◌↔◌, IsTrue};

use crate::tumbler::Tumbler;

/// A start and a width. It holds the places from the start on that are before start plus width.
#[derive(Clone, Copy, Debug, PartialEq, Eq)]
pub struct Span {
    pub start: Tumbler,
    pub width: Tumbler,
}

impl Span {
    ghost use Rattle.tumbler.specs.Span.{SpanFits, IsIn, Share, end_of};
    ghost use Rattle.tumbler.specs.Places.{IsBefore, IsTumbler};

    /// Another with the same start and width.
    pub fn copy(&self) -> Span
        ensures { result ≡ self.now }
    {
        *self
    }

    /// Whether the end, start plus width, is a tumbler.
    pub fn fits(&self) -> bool
        ensures { IsTrue result ↔ SpanFits self.now }
    {
        self.start.fits(&self.width)
    }

    /// Whether `x` lies in the span.
    pub fn contains(&self, x: &Tumbler) -> bool
        requires { SpanFits self.now }
        ensures { IsTrue result ↔ IsIn x.now self.now }
    {
        if x.is_before(&self.start) {
            return false;
        }
        self.ends_after(x)
    }

    /// Whether some place lies in both spans. Spans that only touch share none.
    pub fn overlaps(&self, other: &Span) -> bool
        requires fits { SpanFits self.now }
        requires other_fits { SpanFits other.now }
        ensures { IsTrue result ↔ Share self.now other.now }
    {
        if self.start.is_before(&other.start) {
            return self.ends_after(&other.start) && other.ends_after(&other.start);
        }
        self.ends_after(&self.start) && other.ends_after(&self.start)
    }

    fn ends_after(&self, x: &Tumbler) -> bool
        requires { SpanFits self.now }
        ensures after { IsTrue result ↔ IsBefore x.now (end_of self.now) }
        ensures tumbler { IsTumbler x.now }
    {
        x.is_before(&self.start.add(&self.width))
    }
}
