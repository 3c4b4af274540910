//! The rows of a document once those that a span picks are gone.
ghost use Rattle.std.specs.Prelude.{◌≡◌, ◌==◌, ◌&&◌, IfOk, not, map, filter, count_by, if◌then◌else◌};
ghost use Rattle.std.specs.Ordering.{nat_cmp, is_lt};
ghost use Rattle.std.specs.Cmp.Lexicographic.{slice_cmp};
ghost use Rattle.tumbler.specs.Span.{end_of};
ghost use Rattle.world_rules.specs.World.{is_same, v_address};
ghost use Rattle.world_rules.specs.Edits.{is_same_part, rows_without, down_by};
ghost use Rattle.flat_rows.specs.Closing.{goes_within, going_within, is_before, of_part, closed_after, rows_left};

use febe_data::{List, Memory, Span, Tumbler};
use std::alloc::Global;
use world_rules::{Part, Row, WorldError};

/// Whether the row is one of the document's from the start up to the end.
fn goes_within(row: &Row, document: &Tumbler, start: &Tumbler, end: &Tumbler) -> bool
    ensures { result ≡ goes_within document.now start.now end.now row.now }
{
    row.document == *document && row.is_within(start, end)
}

/// Whether the row's V-address is before the end.
fn is_before(row: &Row, end: &Tumbler) -> bool
    ensures { result ≡ is_before end.now row.now }
{
    let address = [row.part.number(), row.n];
    address.as_slice().cmp(&end.places()).is_lt()
}

/// How many rows of the part go, where the type has the number.
fn going_within(
    rows: &[Row],
    document: &Tumbler,
    start: &Tumbler,
    end: &Tumbler,
    part: Part,
) -> Result<u32, WorldError>
    ensures { IfOk result (λ number. number ≡ going_within rows.now document.now start.now end.now part) }
{
    let number = rows
        .iter()
        .filter(|row| goes_within(row, document, start, end) && row.part == part)
        .count();
    u32::try_from(number).map_err(|_| WorldError::TooGreat)
}

/// The row, closed up by the number of rows that go of its part, if it is one of the document's that
/// is not before the end.
fn closed_after(row: &Row, document: &Tumbler, end: &Tumbler, text: u32, links: u32) -> Row
    ensures { result ≡ closed_after document.now end.now text links row.now }
{
    let mut closed = row.copy();
    if row.document == *document && !is_before(row, end) {
        let gone = match row.part {
            Part::Text => text,
            Part::Links => links,
        };
        closed.n = row.n.saturating_sub(gone);
    }
    closed
}

/// The rows that do not go, closed up by the numbers of text rows and of link rows that do.
#[tactic(auto, using(std::proofs::lemmas::List::Elements::filter_more))]
fn rows_left(
    alloc: Global,
    rows: &[Row],
    document: &Tumbler,
    start: &Tumbler,
    end: &Tumbler,
    text: u32,
    links: u32,
) -> Result<List<Row>, Memory>
    ensures { IfOk result (λ made. made.items ≡ rows_left rows.now document.now start.now end.now text links) }
{
    let mut made = List::new(alloc);
    for row in rows {
        if !goes_within(row, document, start, end) {
            made.push(closed_after(row, document, end, text, links))?;
        }
    }
    Ok(made)
}

/// The rows without those that the span picks from the document, closed up.
#[tactic(auto, using(crate::proofs::Closed::closed))]
pub fn rows_without(
    alloc: Global,
    rows: &[Row],
    document: &Tumbler,
    span: &Span,
) -> Result<List<Row>, WorldError>
    ensures { IfOk result (λ made. made.items ≡ rows_without rows.now document.now span.now) }
{
    if !span.fits() {
        return Err(WorldError::NoTumbler);
    }
    let end = span.start.add(&span.width);
    let text = going_within(rows, document, &span.start, &end, Part::Text)?;
    let links = going_within(rows, document, &span.start, &end, Part::Links)?;
    let left = rows_left(alloc, rows, document, &span.start, &end, text, links)?;
    Ok(left)
}
