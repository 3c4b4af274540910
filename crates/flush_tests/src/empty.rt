//! A disk without pages, and trees of nothing.
//!
//! Each tree of nothing is one empty node, the first of its arena; the documents' arena has none.

use febe_data::{List, Text};
use granfilade::Granfilade;
use green_fakes::MemoryDisk;
use green_flush::{Flush, Trees, load, open_pages};
use page_journal::PageFault;
use poom::Poom;
use spanfilade::Spanfilade;
use std::alloc::Global;
use std::process::Abort;
use std::test::Fail;
use tumbler::Memory;

/// The bytes of tables without documents and links: two counts of 4 bytes and five roots of 8, each of them 0.
const NO_TABLES: [u8; 48] = [0; 48];

/// The indexes of the ends of no links.
struct Ends {
    from: Spanfilade,
    to: Spanfilade,
    three: Spanfilade,
}

/// By hand, so that a caller's exits do not look into the trees.
impl Drop for Ends {
    fn drop(self) {
        let Ends {
            from: _,
            to: _,
            three: _,
        } = self;
    }
}

/// Trees of nothing, and their tables.
struct Nothing {
    granfilade: Granfilade,
    poom: Poom,
    spanfilade: Spanfilade,
    ends: Ends,
    tables: Text,
}

/// By hand, as for the ends.
impl Drop for Nothing {
    fn drop(self) {
        let Nothing {
            granfilade: _,
            poom: _,
            spanfilade: _,
            ends: _,
            tables: _,
        } = self;
    }
}

fn no_ends(alloc: Global) -> Result<Ends, Memory> {
    let from = Spanfilade::new(alloc)?;
    let to = Spanfilade::new(alloc)?;
    let three = Spanfilade::new(alloc)?;
    Ok(Ends { from, to, three })
}

fn trees_of_nothing(alloc: Global) -> Result<Nothing, Memory> {
    let tables = Text::from_slice(alloc, &NO_TABLES)?;
    let ends = no_ends(alloc)?;
    let granfilade = Granfilade::new(alloc)?;
    let spanfilade = Spanfilade::new(alloc)?;
    Ok(Nothing {
        granfilade,
        poom: Poom::new(alloc),
        spanfilade,
        ends,
        tables,
    })
}

/// Saves trees of nothing at a position.
fn save_nothing(
    alloc: Global,
    disk: &mut MemoryDisk,
    flush: &mut Flush,
    position: u64,
) -> Result<(), PageFault> {
    let trees = trees_of_nothing(alloc)?;
    flush.save(
        alloc,
        disk,
        &trees.granfilade,
        &trees.poom,
        &trees.spanfilade,
        &trees.ends.from,
        &trees.ends.to,
        &trees.ends.three,
        &trees.tables,
        position,
    )
}

/// The position of trees that were found, if their tables are without documents.
fn position_of(found: &Option<(Trees, u64)>) -> Option<u64> {
    let Some((trees, position)) = found else {
        return None;
    };
    (trees.tables.as_slice() == NO_TABLES.as_slice()).then_some(*position)
}

/// The position of the trees that the pages hold.
fn loaded(alloc: Global, disk: &mut MemoryDisk) -> Result<Option<u64>, PageFault> {
    let found = load(alloc, disk)?;
    Ok(position_of(&found))
}

/// Saves at a position, and tells whether the pages then hold trees at it.
fn saves(
    alloc: Global,
    disk: &mut MemoryDisk,
    flush: &mut Flush,
    position: u64,
) -> Result<bool, PageFault> {
    save_nothing(alloc, disk, flush, position)?;
    Ok(loaded(alloc, disk)? == Some(position))
}

fn opened(alloc: Global, disk: &mut MemoryDisk) -> Result<Flush, PageFault> {
    let opened = open_pages(alloc, disk)?;
    Ok(opened.flush)
}

/// An empty disk, one save, one that goes on from it, and one that writes all anew.
fn come_back(alloc: Global, disk: &mut MemoryDisk) -> Result<bool, PageFault> {
    let empty = loaded(alloc, disk)?.is_none();
    let mut flush = opened(alloc, disk)?;
    let first = saves(alloc, disk, &mut flush, 7)?;
    let second = saves(alloc, disk, &mut flush, 8)?;
    flush.renew();
    let third = saves(alloc, disk, &mut flush, 9)?;
    Ok(empty && first && second && third)
}

#[test]
fn trees_of_nothing_come_back(rt: HostRuntime) -> Result<(), Fail> {
    let alloc = rt.alloc();
    let mut disk = MemoryDisk::new(alloc, List::new(alloc));
    let seen = come_back(alloc, &mut disk);
    assert!(&rt; seen == Ok(true));
    Ok(())
}
