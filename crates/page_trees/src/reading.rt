//! Reading trees and tables from the streams of a header.
ghost use Rattle.std.specs.Prelude.{◌<◌, length, IfOk};
ghost use Rattle.node_pages.specs.Streams.{IsReadArena};
ghost use Rattle.page_chains.specs.Reading.{plain_chains};
ghost use Rattle.page_tables.specs.TableBytes.{AreReadTables};
ghost use Rattle.page_trees.specs.Trees.{stream, AreFound};
ghost use Rattle.page_trees.specs.inside.Streams.{AreSpelled};

use crate::roots::have_roots;
use crate::trees::PageTrees;
use enfilade_core::Arena;
use febe_data::Memory;
use node_pages::{PagedPlane, read_nodes};
use page_chains::{CHAINS, Chain, Header};
use page_tables::{Tables, read_tables};
use std::alloc::Global;

/// The arena whose stream stands at this place.
fn arena_at<P: PagedPlane>(
    alloc: Global,
    chains: &[Chain],
    k: usize,
) -> Result<Option<Arena<P>>, Memory>
    requires { k < length chains.now }
    ensures { IfOk result (λ read. IsReadArena P.widths P.is_row P.row_bytes (stream (plain_chains chains.now) k) read) }
{
    read_nodes::<P>(alloc, chains[k].bytes.as_slice())
}

/// The tables whose stream stands at this place.
fn tables_at(alloc: Global, chains: &[Chain], k: usize) -> Result<Option<Tables>, Memory>
    requires { k < length chains.now }
    ensures { IfOk result (λ read. AreReadTables (stream (plain_chains chains.now) k) read) }
{
    read_tables(alloc, chains[k].bytes.as_slice())
}

/// What the seven streams of a header spell.
fn trees_of(alloc: Global, header: &Header) -> Result<Option<PageTrees>, Memory>
    ensures { IfOk result (λ found. AreSpelled (plain_chains header.now.chains.items) header.now.position found) }
{
    let chains = header.chains.as_slice();
    if chains.len() != CHAINS {
        return Ok(None);
    }
    let Some(granfilade) = arena_at(alloc, chains, 0)? else {
        return Ok(None);
    };
    let Some(poom) = arena_at(alloc, chains, 1)? else {
        return Ok(None);
    };
    let Some(spanfilade) = arena_at(alloc, chains, 2)? else {
        return Ok(None);
    };
    let Some(from) = arena_at(alloc, chains, 3)? else {
        return Ok(None);
    };
    let Some(to) = arena_at(alloc, chains, 4)? else {
        return Ok(None);
    };
    let Some(three) = arena_at(alloc, chains, 5)? else {
        return Ok(None);
    };
    let Some(tables) = tables_at(alloc, chains, 6)? else {
        return Ok(None);
    };
    Ok(Some(PageTrees {
        granfilade,
        poom,
        spanfilade,
        from,
        to,
        three,
        tables,
        position: header.position,
    }))
}

/// The trees and tables that the streams of a header spell. There are none exactly where the header has not seven chains,
/// a stream is no arena's or no tables', or a root is no node of its arena.
///
/// Memory is taken for what the streams' bytes hold, whatever the counts in them say, and the time goes by the bytes.
pub fn trees_in(alloc: Global, header: &Header) -> Result<Option<PageTrees>, Memory>
    ensures { IfOk result (λ found. AreFound (plain_chains header.now.chains.items) header.now.position found) }
{
    let Some(trees) = trees_of(alloc, header)? else {
        return Ok(None);
    };
    if !have_roots(&trees) {
        return Ok(None);
    }
    Ok(Some(trees))
}
