//! Requests beside the entries that they make.

use crate::sessions::{bytes_of, request_of};
use febe_data::{Change, Entry, Memory, Request};
use flat_world::FlatWorld;
use std::alloc::Global;
use std::process::Abort;
use std::test::Fail;

/// What an entry has: its serial, and of a text that comes in its place and the number of its first content byte.
type Figures = (u64, u32, u32);

/// A session's request, and what its entry has; no places where no text comes in.
type Row = (u64, &'static str, Figures);

/// Two sessions that share a world. Serials count for each of them, and content bytes for each document.
const ROWS: &[Row] = &[
    (1, "34~0.1.1.0.1~", (1, 0, 0)),
    (1, "11~", (2, 0, 0)),
    (1, "0~A~0.1.1~t2:ab", (3, 1, 1)),
    (2, "34~0.1.1.0.2~", (1, 0, 0)),
    (1, "40~A~", (4, 0, 0)),
    (1, "0~A~0.1.2~t1:c", (5, 2, 3)),
    (2, "35~A~2~2~", (2, 0, 0)),
    (2, "0~0.1.1.0.2.0.1~0.1.4~t1:d", (3, 4, 1)),
];

fn figures_of(entry: &Entry) -> Figures {
    match &entry.change {
        Change::Insert { at, first, .. } => (entry.serial, *at, *first),
        _ => (entry.serial, 0, 0),
    }
}

/// Makes the entry of the session's request, which changes the world.
fn make(
    alloc: Global,
    world: &mut FlatWorld,
    session: u64,
    request: &Request,
) -> Result<Option<Figures>, Memory> {
    let Some(entry) = world.entry(alloc, session, request)? else {
        return Ok(None);
    };
    world.apply(alloc, &entry)?;
    Ok(Some(figures_of(&entry)))
}

/// Makes the entry of the row's request; none where its bytes spell no request, or a query.
fn make_row(alloc: Global, world: &mut FlatWorld, row: &Row) -> Result<Option<Figures>, Memory> {
    let bytes = bytes_of(alloc, row.1)?;
    let Some(request) = request_of(alloc, bytes.as_slice())? else {
        return Ok(None);
    };
    make(alloc, world, row.0, &request)
}

fn check_rows(rt: &impl Abort, alloc: Global, world: &mut FlatWorld) -> Result<(), Fail> {
    for row in ROWS {
        assert_eq!(rt; make_row(alloc, world, row)?, Some(row.2), "at {}", row.1);
    }
    Ok(())
}

#[test]
fn entries_are_numbered(rt: HostRuntime) -> Result<(), Fail> {
    let alloc = rt.alloc();
    let mut world = FlatWorld::new(alloc);
    check_rows(&rt, alloc, &mut world)
}
