//! What it says that a row meets a span. The law is a function that does nothing, whose contract says it.
ghost use Rattle.enfilade_search.specs.Laws.{MeetsExactly};

use enfilade_core::Plane;

/// On either axis a row meets a span exactly where the two have a coordinate in common or, where the row has no width
/// on the axis, its place is in the span.
pub fn meets_exactly<P: Plane>()
    ensures { MeetsExactly P.widths }
{}
