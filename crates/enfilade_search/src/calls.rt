//! Which rows of a tree stand in a range, and which meet a span.
ghost use Rattle.std.specs.Prelude.{◌≡◌, ◌<◌, map, length, IfOk};
ghost use Rattle.std.specs.List.{filter};
ghost use Rattle.tumbler.specs.Span.{SpanFits};
ghost use Rattle.enfilade_core.specs.Rows.{rows_of};
ghost use Rattle.enfilade_core.specs.Axes.{first_axis, second_axis};
ghost use Rattle.enfilade_core.specs.Plain.{plain_row};
ghost use Rattle.enfilade_core.specs.Edits.{is_within};
ghost use Rattle.enfilade_search.specs.Meeting.{meets};

use crate::gather::found;
use crate::sought::{By, Sought};
use enfilade_core::{Arena, Node, Plane, Row};
use tumbler::{List, Memory, Span, Tumbler};

/// The rows that stand at `from` or after it on the first axis, and before `to`, in order.
///
/// It looks at those nodes alone whose rows can reach from before `to` up to `from`.
pub fn in_range<P: Plane>(
    arena: &Arena<P>,
    root: Node,
    from: &Tumbler,
    to: &Tumbler,
) -> Result<List<Row<P::Leaf>>, Memory>
    requires { root.0 < length arena.now }
    ensures { IfOk result (λ found. map (plain_row P.plain) found.items ≡ filter (is_within from.now to.now) (rows_of arena.now root.0)) }
{
    let sought = Sought {
        from: from.copy(),
        to: to.copy(),
        by: By::Place,
    };
    found(arena, root, &sought)
}

/// The rows that meet a span by what they take up on the second axis, in order. A row that has no width there
/// meets the span where its place is in it.
///
/// It looks at those nodes alone whose rows can reach into the span.
pub fn meeting<P: Plane>(
    arena: &Arena<P>,
    root: Node,
    span: &Span,
) -> Result<List<Row<P::Leaf>>, Memory>
    requires there { root.0 < length arena.now }
    requires fits { SpanFits span.now }
    ensures { IfOk result (λ found. map (plain_row P.plain) found.items ≡ filter (meets (second_axis P.widths) span.now) (rows_of arena.now root.0)) }
{
    let sought = Sought {
        from: span.start.copy(),
        to: span.start.add(&span.width),
        by: By::Second,
    };
    found(arena, root, &sought)
}

/// The rows that meet a span by what they take up on the first axis, in order. A row that has no width there
/// meets the span where its place is in it.
///
/// It looks at those nodes alone whose rows can reach into the span.
pub fn overlapping<P: Plane>(
    arena: &Arena<P>,
    root: Node,
    span: &Span,
) -> Result<List<Row<P::Leaf>>, Memory>
    requires there { root.0 < length arena.now }
    requires fits { SpanFits span.now }
    ensures { IfOk result (λ found. map (plain_row P.plain) found.items ≡ filter (meets (first_axis P.widths) span.now) (rows_of arena.now root.0)) }
{
    let sought = Sought {
        from: span.start.copy(),
        to: span.start.add(&span.width),
        by: By::First,
    };
    found(arena, root, &sought)
}
