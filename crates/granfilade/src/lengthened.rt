//! The last row in front of a put, where new bytes lengthen it.
ghost use Rattle.std.specs.Prelude.{◌<◌, length, IfOk, IfSome};
ghost use Rattle.enfilade_core.specs.Rows.{rows_of};
ghost use Rattle.granfilade.specs.Lengthening.{Lengthens};

use crate::leaves::MOST_LEAF_BYTES;
use crate::parts::so_far_on;
use enfilade_core::{Arena, ContentPlane, Node};
use tumbler::{List, Memory, Text, Tumbler};

/// Where a row stands, and its bytes with new ones behind.
#[derive(Drop)]
pub(crate) struct Lengthened {
    pub from: Tumbler,
    pub text: Text,
}

/// The last row before a start with new bytes behind, if it ends there and has room for one.
pub(crate) fn last_lengthened(
    arena: &Arena<ContentPlane>,
    root: Node,
    start: &Tumbler,
    bytes: &[u8],
) -> Result<Option<Lengthened>, Memory>
    requires { root.0 < length arena.now }
    ensures { IfOk result (λ found. IfSome found (λ made. Lengthens start.now bytes.now (rows_of arena.now root.0) made)) }
{
    let alloc = arena.allocator();
    let Some(row) = arena.row_before(root, start) else {
        return Ok(None);
    };
    let long = row.leaf.len();
    if long >= MOST_LEAF_BYTES {
        return Ok(None);
    }
    if so_far_on(&row.first, long) != *start {
        return Ok(None);
    }
    let mut text = List::new(alloc);
    text.reserve(long.saturating_add(bytes.len()))?;
    text.extend_from_slice(row.leaf.as_slice())?;
    text.extend_from_slice(bytes)?;
    Ok(Some(Lengthened {
        from: row.first.copy(),
        text,
    }))
}
