//! Streams of nodes.
ghost use Rattle.std.specs.Prelude.{◌≡◌, ◌++◌, drop, All, OnOk, IfOk};
ghost use Rattle.node_pages.specs.NodeBytes.{arena_bytes, IsNode};
ghost use Rattle.node_pages.specs.Streams.{IsReadArena};

use crate::nodes::{append_children, children_at};
use crate::planes::PagedPlane;
use enfilade_core::Arena;
use std::alloc::Global;
use tumbler::{List, Memory, Text};

/// Writes the nodes of an arena at the end of a text, in the order of their numbers, from a number on. Nodes that were
/// added since can be written behind a stream so. What cannot be written is refused, as if memory ran out: a node with
/// 2^32 children or more, bytes that are as many, and bytes off zero on the second axis.
pub fn append_nodes<P: PagedPlane>(
    arena: &Arena<P>,
    from: u64,
    out: &mut Text,
) -> Result<(), Memory>
    ensures spelled { OnOk result (out.new.items ≡ out.old.items ++ arena_bytes P.row_bytes (drop from arena.now)) }
    ensures right { OnOk result (All (IsNode P.is_row) (drop from arena.now)) }
{
    let _alloc = arena.allocator();
    let mut number = from;
    while let Some(node) = arena.at_number(number) {
        let children = arena.node(node);
        append_children::<P>(out, children)?;
        number += 1;
    }
    Ok(())
}

/// The arena whose stream the bytes are. `None` exactly where they are no arena's: one byte less, one more, a node that
/// names itself or a later one, places, widths, extents or depths that no arena has, or any field out of its bounds.
/// Memory is taken for what the bytes hold, whatever the counts in them say, and time goes by the bytes alone, however
/// often nodes name the same one.
pub fn read_nodes<P: PagedPlane>(alloc: Global, bytes: &[u8]) -> Result<Option<Arena<P>>, Memory>
    ensures { IfOk result (λ read. IsReadArena P.widths P.is_row P.row_bytes bytes.now read) }
{
    let mut arena = Arena::new(alloc);
    let mut reaches = List::new(alloc);
    let mut rest = bytes;
    while !rest.is_empty() {
        let Some((children, behind)) = children_at(alloc, &arena, rest)? else {
            return Ok(None);
        };
        let is_well_formed = arena.is_well_formed_by(&children, reaches.as_slice());
        if !is_well_formed {
            return Ok(None);
        }
        let node = arena.add_node(children)?;
        arena.add_reach(node, &mut reaches)?;
        rest = behind;
    }
    let _alloc = arena.allocator();
    Ok(Some(arena))
}
