//! The bytes of picked rows by their addresses. The addresses come in first, and then one pass over the content finds their
//! bytes, so that no other byte is copied.
ghost use Rattle.std.specs.Prelude.{◌≡◌, None, ◌++◌, ◌&&◌, map, filter, IfOk, OnOk, IsTrue};
ghost use Rattle.std.specs.Option.{option_to_list};
ghost use Rattle.febe_data.specs.Plain.{plain_spec};
ghost use Rattle.world_rules.specs.World.{is_text_of};
ghost use Rattle.world_rules.specs.Picking.{is_within, picked_text, addresses_of, picked_by_spec, picked_addresses};
ghost use Rattle.flat_world.specs.inside.ByteIndex.{WantsMore, TakesByte, FindsBytes, HasBytesOf, entry_at, byte_of};

use crate::flat::FlatWorld;
use febe_data::{Memory, Span, Spec, Text, Tumbler};
use flat_rows::picks::{end_of, is_picked_text};
use std::alloc::Global;
use std::collections::BTreeMap;
use world_rules::{ByteRow, Row, WorldError};

/// Addresses, each with its byte once that is found.
pub(crate) type ByteIndex = BTreeMap<Tumbler, Option<u8>>;

/// Adds the addresses of the document's text rows from the start on and before the end.
fn want_rows(
    index: &mut ByteIndex,
    rows: &[Row],
    document: &Tumbler,
    start: &Tumbler,
    end: &Tumbler,
) -> Result<(), WorldError>
    ensures { OnOk result (WantsMore (addresses_of (filter (λ row. is_text_of document.now row && is_within start.now end.now row) rows.now)) index.old index.new) }
{
    for row in rows {
        if is_picked_text(row, document, start, end) {
            index.insert(row.address.copy(), None)?;
        }
    }
    Ok(())
}

/// Whether the address is before the index's first one or behind its last. Most are, and so need no search.
fn is_outside(index: &ByteIndex, address: &Tumbler) -> bool
    ensures { IsTrue result → entry_at index.now address.now ≡ None }
{
    let Some((first, _)) = index.first_key_value() else {
        return true;
    };
    let Some((last, _)) = index.last_key_value() else {
        return true;
    };
    first > address || last < address
}

/// Puts the row's byte at its address, where the index has that.
fn take_byte(index: &mut ByteIndex, row: &ByteRow)
    ensures { TakesByte row.now index.old index.new }
{
    if is_outside(index, &row.address) {
        return;
    }
    if let Some(byte) = index.get_mut(&row.address) {
        *byte = Some(row.byte);
    }
}

/// Finds the byte of each address.
fn find_bytes(index: &mut ByteIndex, bytes: &[ByteRow])
    ensures { FindsBytes bytes.now index.old index.new }
{
    for row in bytes {
        take_byte(index, row);
    }
}

impl FlatWorld {
    /// Adds the addresses that one span of a document picks.
    fn want_span(
        &self,
        index: &mut ByteIndex,
        document: &Tumbler,
        span: &Span,
    ) -> Result<(), WorldError>
        ensures { OnOk result (WantsMore (addresses_of (picked_text self.now.world document.now span.now)) index.old index.new) }
    {
        let end = end_of(span)?;
        want_rows(index, self.rows.as_slice(), document, &span.start, &end)
    }

    /// Adds the addresses that one spec picks.
    fn want_spec(&self, index: &mut ByteIndex, spec: &Spec) -> Result<(), WorldError>
        ensures { OnOk result (WantsMore (picked_by_spec self.now.world (plain_spec spec.now)) index.old index.new) }
    {
        for span in spec.spans.as_slice() {
            self.want_span(index, &spec.document, span)?;
        }
        Ok(())
    }

    /// The bytes of what the specs pick.
    #[tactic(auto, using(crate::proofs::ByteIndexes::wants_none))]
    pub(crate) fn byte_index(&self, alloc: Global, specs: &[Spec]) -> Result<ByteIndex, WorldError>
        ensures { IfOk result (λ index. HasBytesOf self.now.world.bytes (picked_addresses self.now.world (map plain_spec specs.now)) index) }
    {
        let mut index = BTreeMap::new(alloc);
        for spec in specs {
            self.want_spec(&mut index, spec)?;
        }
        find_bytes(&mut index, self.bytes.as_slice());
        Ok(index)
    }
}

/// Adds the byte that the index has at the address, where it has one.
pub(crate) fn push_byte(text: &mut Text, index: &ByteIndex, address: &Tumbler) -> Result<(), Memory>
    ensures { OnOk result (text.new.items ≡ text.old.items ++ option_to_list (byte_of index.now address.now)) }
{
    let Some(Some(byte)) = index.get(address) else {
        return Ok(());
    };
    text.push(*byte)
}
