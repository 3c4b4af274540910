//! The laws of streams. Each is a function that does nothing, whose contract says the law.
ghost use Rattle.node_pages.specs.Laws.{OneArena, LongerGoesOn};

use crate::planes::PagedPlane;

/// Bytes are the stream of one arena at most.
pub fn one_arena<P: PagedPlane>()
    ensures { OneArena P.widths P.is_row P.row_bytes }
{}

/// The stream of an arena goes on from the stream that it had with fewer nodes.
pub fn longer_goes_on<P: PagedPlane>()
    ensures { LongerGoesOn P.widths P.is_row P.row_bytes }
{}
