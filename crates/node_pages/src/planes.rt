//! The planes, with how their rows are written and read.
ghost use Rattle.std.specs.Prelude.{◌≡◌, ℕ, List as ListOf, ◌++◌, Option as OptionOf, OnOk};
ghost use Rattle.febe_fields.specs.Reading.{ReadsIfOk};
ghost use Rattle.disk_fields.specs.Codec.{Codec};
ghost use Rattle.enfilade_core.specs.declared.tree.Row.{Row as RowOf};
ghost use Rattle.enfilade_core.specs.Plain.{plain_row};
ghost use Rattle.enfilade_core.specs.Planes.{plain_text};
ghost use Rattle.node_pages.specs.NodeBytes.{content_row_bytes, text_row_bytes, key_row_bytes, IsContentRow, IsTextRow, IsKeyRow};
ghost use Rattle.node_pages.specs.NodeReading.{content_row_at, text_row_at, key_row_at};

use disk_fields::{append_text, append_tumbler, append_u32, text_at, tumbler_at, u32_at};
use enfilade_core::{ContentPlane, KeyPlane, Plane, Row, TextPlane};
use std::alloc::Global;
use tumbler::{List, Memory, Text, Tumbler};

/// A plane whose rows can be written and read again.
pub trait PagedPlane: Plane {
    /// Which rows can be written.
    ghost is_row: { RowOf Self.Leaf → Type 0 };

    /// How a row is written.
    ghost row_bytes: { RowOf Self.Leaf → ListOf ℕ };

    /// How a row is read.
    ghost row_at: { ListOf ℕ → OptionOf (RowOf Self.Leaf × ListOf ℕ) };

    /// Writes a row at the end of a text. One that cannot be written is refused, as if memory ran out.
    fn append_row(out: &mut Text, row: &Row<Self::Leaf>) -> Result<(), Memory>
        ensures spelled { OnOk result (out.new.items ≡ out.old.items ++ row_bytes (plain_row Self.plain row.now)) }
        ensures right { OnOk result (is_row (plain_row Self.plain row.now)) };

    /// The row that the bytes begin with, and the bytes after it.
    fn row_at(alloc: Global, bytes: &[u8]) -> Result<Option<(Row<Self::Leaf>, &[u8])>, Memory>
        ensures { ReadsIfOk (λ x. (plain_row Self.plain x.0, x.1.now)) result (row_at bytes.now) };

    /// What is read is exactly what is written so.
    ghost rows_read_as_written: { Codec is_row row_at row_bytes };
}

impl PagedPlane for ContentPlane {
    ghost is_row = { IsContentRow };

    ghost row_bytes = { content_row_bytes };

    ghost row_at = { content_row_at };

    fn append_row(out: &mut Text, row: &Row<Text>) -> Result<(), Memory> {
        let bytes = row.leaf.as_slice();
        if !row.second.places().is_empty() {
            return Err(Memory);
        }
        if bytes.len() > u32::MAX as usize {
            return Err(Memory);
        }
        let _first = row.first.places();
        append_tumbler(out, &row.first)?;
        append_text(out, bytes)
    }

    #[tactic(auto, unfolding(crate::specs::NodeReading::content_row_at, disk_fields::specs::Reading::made_at, disk_fields::specs::Reading::both_at))]
    fn row_at(alloc: Global, bytes: &[u8]) -> Result<Option<(Row<Text>, &[u8])>, Memory> {
        let Some((first, rest)) = tumbler_at(alloc, bytes) else {
            return Ok(None);
        };
        let Some((text, rest)) = text_at(rest) else {
            return Ok(None);
        };
        let leaf = List::from_slice(alloc, text)?;
        let second = Tumbler::zero(alloc);
        Ok(Some((
            Row {
                first,
                second,
                leaf,
            },
            rest,
        )))
    }

    ghost use Rattle.node_pages.specs.RowCodecs.{content_row_codec};

    ghost rows_read_as_written = { content_row_codec };
}

impl PagedPlane for TextPlane {
    ghost is_row = { IsTextRow };

    ghost row_bytes = { text_row_bytes };

    ghost row_at = { text_row_at };

    fn append_row(out: &mut Text, row: &Row<u32>) -> Result<(), Memory> {
        let _first = row.first.places();
        let _second = row.second.places();
        append_tumbler(out, &row.first)?;
        append_tumbler(out, &row.second)?;
        append_u32(out, row.leaf)
    }

    #[tactic(auto, unfolding(crate::specs::NodeReading::text_row_at, disk_fields::specs::Reading::made_at, disk_fields::specs::Reading::both_at))]
    fn row_at(alloc: Global, bytes: &[u8]) -> Result<Option<(Row<u32>, &[u8])>, Memory> {
        let Some((first, rest)) = tumbler_at(alloc, bytes) else {
            return Ok(None);
        };
        let Some((second, rest)) = tumbler_at(alloc, rest) else {
            return Ok(None);
        };
        let Some((leaf, rest)) = u32_at(rest) else {
            return Ok(None);
        };
        Ok(Some((
            Row {
                first,
                second,
                leaf,
            },
            rest,
        )))
    }

    ghost use Rattle.node_pages.specs.RowCodecs.{text_row_codec};

    ghost rows_read_as_written = { text_row_codec };
}

impl PagedPlane for KeyPlane {
    ghost is_row = { IsKeyRow };

    ghost row_bytes = { key_row_bytes };

    ghost row_at = { key_row_at };

    fn append_row(out: &mut Text, row: &Row<Tumbler>) -> Result<(), Memory> {
        let _first = row.first.places();
        let _second = row.second.places();
        let _width = row.leaf.places();
        append_tumbler(out, &row.first)?;
        append_tumbler(out, &row.second)?;
        append_tumbler(out, &row.leaf)
    }

    #[tactic(auto, unfolding(crate::specs::NodeReading::key_row_at, disk_fields::specs::Reading::made_at, disk_fields::specs::Reading::both_at))]
    fn row_at(alloc: Global, bytes: &[u8]) -> Result<Option<(Row<Tumbler>, &[u8])>, Memory> {
        let Some((first, rest)) = tumbler_at(alloc, bytes) else {
            return Ok(None);
        };
        let Some((second, rest)) = tumbler_at(alloc, rest) else {
            return Ok(None);
        };
        let Some((leaf, rest)) = tumbler_at(alloc, rest) else {
            return Ok(None);
        };
        Ok(Some((
            Row {
                first,
                second,
                leaf,
            },
            rest,
        )))
    }

    ghost use Rattle.node_pages.specs.RowCodecs.{key_row_codec};

    ghost rows_read_as_written = { key_row_codec };
}
