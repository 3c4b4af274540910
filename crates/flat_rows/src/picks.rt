//! What spec sets pick.
ghost use Rattle.std.specs.Prelude.{◌≡◌, ◌++◌, ◌&&◌, map, filter, IfOk, OnOk};
ghost use Rattle.tumbler.specs.Span.{end_of};
ghost use Rattle.febe_data.specs.Plain.{plain_spec};
ghost use Rattle.world_rules.specs.World.{is_text_of};
ghost use Rattle.world_rules.specs.Picking.{is_within, picked_text, addresses_of, picked_by_spec, picked_addresses};

use febe_data::{List, Memory, Span, Tumbler};
use world_rules::{Row, WorldError};

/// The first address behind the span, where it is an address.
pub fn end_of(span: &Span) -> Result<Tumbler, WorldError>
    ensures { IfOk result (λ end. end ≡ end_of span.now) }
{
    if !span.fits() {
        return Err(WorldError::NoTumbler);
    }
    Ok(span.start.add(&span.width))
}

/// Whether the row is of the document's text, and its V-address at the start or after it, and before the end.
pub fn is_picked_text(row: &Row, document: &Tumbler, start: &Tumbler, end: &Tumbler) -> bool
    ensures { result ≡ (is_text_of document.now row.now && is_within start.now end.now row.now) }
{
    row.is_text_of(document) && row.is_within(start, end)
}

/// Adds the I-addresses of the document's text rows from the start on and before the end.
pub fn push_addresses(
    made: &mut List<Tumbler>,
    rows: &[Row],
    document: &Tumbler,
    start: &Tumbler,
    end: &Tumbler,
) -> Result<(), Memory>
    ensures { OnOk result (made.new.items ≡ made.old.items ++ addresses_of (filter (λ row. is_text_of document.now row && is_within start.now end.now row) rows.now)) }
{
    for row in rows {
        if is_picked_text(row, document, start, end) {
            made.push(row.address.copy())?;
        }
    }
    Ok(())
}
