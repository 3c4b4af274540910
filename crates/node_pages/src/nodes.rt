//! Whole nodes.
ghost use Rattle.std.specs.Prelude.{◌≡◌, ◌++◌, length, OnOk};
ghost use Rattle.febe_fields.specs.Reading.{ReadsIfOk};
ghost use Rattle.enfilade_core.specs.Plain.{shape};
ghost use Rattle.node_pages.specs.NodeBytes.{node_bytes, IsNode};
ghost use Rattle.node_pages.specs.NodeReading.{shape_at};

use crate::fields::{append_branches, branches_at};
use crate::planes::PagedPlane;
use crate::rows::{append_rows, rows_at};
use disk_fields::{append_u8, u8_at};
use enfilade_core::{Arena, Children};
use std::alloc::Global;
use tumbler::{Memory, Text};

/// The kind of a node that has rows.
const BOTTOM: u8 = 0;

/// The kind of a node that has branches.
const INNER: u8 = 1;

/// A node: its kind, and what hangs under it.
pub(crate) fn append_children<P: PagedPlane>(
    out: &mut Text,
    children: &Children<P::Leaf>,
) -> Result<(), Memory>
    ensures spelled { OnOk result (out.new.items ≡ out.old.items ++ node_bytes P.row_bytes (shape P.plain children.now)) }
    ensures right { OnOk result (IsNode P.is_row (shape P.plain children.now)) }
{
    match children {
        Children::Bottom(rows) => {
            append_u8(out, BOTTOM)?;
            append_rows::<P>(out, rows.as_slice())
        }
        Children::Inner(branches) => {
            append_u8(out, INNER)?;
            append_branches::<P>(out, branches.as_slice())
        }
    }
}

/// The next node of the arena.
#[tactic(auto, unfolding(crate::specs::NodeReading::shape_at, disk_fields::specs::Reading::made_at))]
pub(crate) fn children_at<'a, P: PagedPlane>(
    alloc: Global,
    arena: &Arena<P>,
    bytes: &'a [u8],
) -> Result<Option<(Children<P::Leaf>, &'a [u8])>, Memory>
    ensures { ReadsIfOk (λ x. (shape P.plain x.0, x.1.now)) result (shape_at P.row_at (length arena.now) bytes.now) }
{
    let Some((kind, rest)) = u8_at(bytes) else {
        return Ok(None);
    };
    if kind == BOTTOM {
        let Some((rows, rest)) = rows_at::<P>(alloc, rest)? else {
            return Ok(None);
        };
        return Ok(Some((Children::Bottom(rows), rest)));
    }
    if kind == INNER {
        let Some((branches, rest)) = branches_at(alloc, arena, rest)? else {
            return Ok(None);
        };
        return Ok(Some((Children::Inner(branches), rest)));
    }
    Ok(None)
}
