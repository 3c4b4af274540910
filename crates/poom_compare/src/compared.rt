//! The comparison.
ghost use Rattle.std.specs.Prelude.{All, IfOk};
ghost use Rattle.tumbler.specs.Span.{SpanFits};
ghost use Rattle.enfilade_core.specs.Rows.{rows_of};
ghost use Rattle.poom.specs.Laid.{IsRoot, texts};
ghost use Rattle.world_rules.specs.Relation.{diagonals_of};
ghost use Rattle.poom_compare.specs.Shared.{shared, pairs_between, IsCompared, AreValid};
ghost use Rattle.poom_compare.specs.Placed.{IsPlaced, RowsAscend, rows_laid};

use crate::comparing::compared;
use crate::numbering::numbered;
use crate::placing::{Placed, runs_picked};
use crate::stretch::segments;
use enfilade_core::Node;
use febe_data::Diagonal;
use poom::Poom;
use std::alloc::Global;
use std::collections::BTreeMap;
use tumbler::{List, Memory, Span};

/// Where two documents show the same content.
#[derive(Debug, Drop)]
pub enum Compared {
    /// All maximal diagonals, by left and then by right: at most 65,536.
    Diagonals(List<Diagonal>),
    /// There are more than that.
    TooMany,
}

/// All maximal diagonals of two texts, of which these are the runs.
fn between(alloc: Global, lefts: &[Placed], rights: &[Placed]) -> Result<Compared, Memory>
    requires left { All IsPlaced lefts.now }
    requires left_ascends { RowsAscend (rows_laid lefts.now) }
    requires right { All IsPlaced rights.now }
    requires right_ascends { RowsAscend (rows_laid rights.now) }
    ensures { IfOk result (IsCompared (diagonals_of (pairs_between (rows_laid lefts.now) (rows_laid rights.now)))) }
{
    let mut numbers = BTreeMap::new(alloc);
    let lefts = numbered(alloc, &mut numbers, lefts)?;
    let rights = numbered(alloc, &mut numbers, rights)?;
    let lefts = segments(alloc, lefts.as_slice())?;
    let rights = segments(alloc, rights.as_slice())?;
    let found = compared(alloc, lefts.as_slice(), rights.as_slice())?;
    Ok(found)
}

/// All maximal diagonals of what spans pick from the text of one document, and spans from that of another.
///
/// The documents may be the same one, and spans may overlap: what several pick is compared once.
pub fn diagonals(
    poom: &Poom,
    left: Node,
    left_spans: &List<Span>,
    right: Node,
    right_spans: &List<Span>,
) -> Result<Compared, Memory>
    requires left { IsRoot poom.now left.0 }
    requires left_fits { All SpanFits left_spans.now.items }
    requires right { IsRoot poom.now right.0 }
    requires right_fits { All SpanFits right_spans.now.items }
    ensures value { IfOk result (IsCompared (shared (texts (rows_of poom.now left.0)) left_spans.now.items (texts (rows_of poom.now right.0)) right_spans.now.items)) }
    ensures valid { IfOk result AreValid }
{
    let lefts = runs_picked(poom, left, left_spans.as_slice())?;
    let rights = runs_picked(poom, right, right_spans.as_slice())?;
    let found = between(poom.allocator(), lefts.as_slice(), rights.as_slice())?;
    Ok(found)
}
