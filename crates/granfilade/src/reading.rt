//! Reading goes down to the nodes that can have bytes of the span, and copies those bytes alone.
ghost use Rattle.std.specs.Prelude.{◌≡◌, ◌++◌, IfOk, OnOk, OnErr};
ghost use Rattle.std.specs.Io.{StartsWith};
ghost use Rattle.tumbler.specs.Places.{IsTumbler, comes_before, sum};
ghost use Rattle.tumbler.specs.Span.{end_of};
ghost use Rattle.enfilade_core.specs.Laws.{rows_from};
ghost use Rattle.enfilade_core.specs.Planes.{content_widths};
ghost use Rattle.enfilade_search.specs.Sought.{FitsAt, ChildFits};
ghost use Rattle.granfilade.specs.Content.{laid_out, bytes_in};

use crate::parts::append_rows;
use enfilade_core::laws::nodes_are_well_formed;
use enfilade_core::{Arena, Branch, Children, ContentPlane, Node};
use tumbler::{Memory, Span, Text, Tumbler};

/// Adds to `into` the bytes below a node, seen from a base, whose address is in the span, where `end` is the span's end.
#[cycle(below)]
#[tactic(auto, using(crate::proofs::ReadBytes::fronts))]
pub(crate) fn append_node(
    arena: &Arena<ContentPlane>,
    node: Node,
    first: &Tumbler,
    second: &Tumbler,
    span: &Span,
    end: &Tumbler,
    into: &mut Text,
) -> Result<(), Memory>
    requires fits { FitsAt content_widths arena.now node.0 first.now second.now }
    requires start { IsTumbler span.now.start }
    requires end { end.now ≡ end_of span.now }
    ensures ok { OnOk result (into.new.items ≡ into.old.items ++ bytes_in span.now (laid_out (rows_from arena.now node.0 first.now second.now))) }
    ensures err { OnErr result (StartsWith into.new.items into.old.items) }
{
    nodes_are_well_formed(arena);
    match arena.node(node) {
        Children::Bottom(rows) => append_rows(rows.as_slice(), first, second, span, end, into),
        Children::Inner(branches) => {
            let children = branches.as_slice();
            for child in children {
                if !append_child(arena, child, first, second, span, end, into)? {
                    return Ok(());
                }
            }
            Ok(())
        }
    }
}

/// Adds to `into` the bytes below a child whose address is in the span, where the child's node is seen from a base and
/// `end` is the span's end. The answer is whether bytes behind the child can be in the span too.
#[cycle(below)]
fn append_child(
    arena: &Arena<ContentPlane>,
    child: &Branch,
    first: &Tumbler,
    second: &Tumbler,
    span: &Span,
    end: &Tumbler,
    into: &mut Text,
) -> Result<bool, Memory>
    requires fits { ChildFits content_widths arena.now child.now first.now second.now }
    requires start { IsTumbler span.now.start }
    requires end { end.now ≡ end_of span.now }
    ensures ok { OnOk result (into.new.items ≡ into.old.items ++ bytes_in span.now (laid_out (rows_from arena.now child.now.node.0 (sum first.now child.now.first) (sum second.now child.now.second)))) }
    ensures goes_on { IfOk result (λ more. more ≡ comes_before (sum first.now child.now.first) (end_of span.now)) }
    ensures err { OnErr result (StartsWith into.new.items into.old.items) }
{
    nodes_are_well_formed(arena);
    let first = first.add(&child.first);
    if !first.is_before(end) {
        return Ok(false);
    }
    if first.add(&child.first_extent).is_before(&span.start) {
        return Ok(true);
    }
    let second = second.add(&child.second);
    append_node(arena, child.node, &first, &second, span, end, into)?;
    Ok(true)
}
