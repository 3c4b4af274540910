//! The rows of bottom nodes.
ghost use Rattle.std.specs.Prelude.{◌≡◌, ◌++◌, map, All, OnOk};
ghost use Rattle.std.specs.List.{flat_map};
ghost use Rattle.febe_fields.specs.Reading.{ReadsIfOk, many_at};
ghost use Rattle.disk_fields.specs.Format.{AreCounted, list_bytes};
ghost use Rattle.disk_fields.specs.Reading.{counted_at};
ghost use Rattle.enfilade_core.specs.Plain.{plain_row};

use crate::fields::append_count;
use crate::planes::PagedPlane;
use disk_fields::u32_at;
use enfilade_core::Row;
use std::alloc::Global;
use tumbler::{List, Memory, Text};

fn append_each_row<P: PagedPlane>(out: &mut Text, rows: &[Row<P::Leaf>]) -> Result<(), Memory>
    ensures spelled { OnOk result (out.new.items ≡ out.old.items ++ flat_map P.row_bytes (map (plain_row P.plain) rows.now)) }
    ensures right { OnOk result (All P.is_row (map (plain_row P.plain) rows.now)) }
{
    for row in rows {
        P::append_row(out, row)?;
    }
    Ok(())
}

/// How many rows there are, and the rows.
pub(crate) fn append_rows<P: PagedPlane>(
    out: &mut Text,
    rows: &[Row<P::Leaf>],
) -> Result<(), Memory>
    ensures spelled { OnOk result (out.new.items ≡ out.old.items ++ list_bytes P.row_bytes (map (plain_row P.plain) rows.now)) }
    ensures right { OnOk result (AreCounted P.is_row (map (plain_row P.plain) rows.now)) }
{
    append_count(out, rows.len())?;
    append_each_row::<P>(out, rows)
}

/// This many rows. Memory is taken for those that are there, whatever number was asked for.
fn many_rows_at<P: PagedPlane>(
    alloc: Global,
    count: u32,
    bytes: &[u8],
) -> Result<Option<(List<Row<P::Leaf>>, &[u8])>, Memory>
    ensures { ReadsIfOk (λ x. (map (plain_row P.plain) x.0.items, x.1.now)) result (many_at P.row_at count bytes.now) }
{
    let mut rows = List::new(alloc);
    let mut rest = bytes;
    for _ in 0..count {
        let Some((row, behind)) = P::row_at(alloc, rest)? else {
            return Ok(None);
        };
        rows.reserve(1)?;
        rows.push_reserved(row);
        rest = behind;
    }
    Ok(Some((rows, rest)))
}

/// How many rows there are, and the rows.
#[tactic(auto, unfolding(disk_fields::specs::Reading::counted_at))]
pub(crate) fn rows_at<P: PagedPlane>(
    alloc: Global,
    bytes: &[u8],
) -> Result<Option<(List<Row<P::Leaf>>, &[u8])>, Memory>
    ensures { ReadsIfOk (λ x. (map (plain_row P.plain) x.0.items, x.1.now)) result (counted_at P.row_at bytes.now) }
{
    let Some((count, rest)) = u32_at(bytes) else {
        return Ok(None);
    };
    many_rows_at::<P>(alloc, count, rest)
}
