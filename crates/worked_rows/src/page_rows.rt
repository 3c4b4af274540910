//! What runs with pages leave, and what later ones find there.

use crate::disk_rows::{HELLO_SECOND, disk_failing, run_on};
use crate::paged_runs::{LATER, LATER_ANSWERED, beside_log, position_in, run_eager, run_first};
use crate::runs::{HELLO, HELLO_ANSWERED, Ran};
use crate::sessions::bytes_of;
use crate::store_rows::{Asked, House, asks_all, begin, flushes, house_over, reopened};
use green_io::Area;
use std::alloc::Global;
use std::process::Abort;
use std::test::Fail;

/// The run was well, and has written this.
fn check_written(rt: &impl Abort, alloc: Global, ran: &Ran, output: &str) -> Result<(), Fail> {
    assert!(rt; ran.status == 0);
    assert!(rt; ran.written() == bytes_of(alloc, output)?.as_slice());
    Ok(())
}

#[test]
fn a_run_leaves_pages(rt: HostRuntime) -> Result<(), Fail> {
    let alloc = rt.alloc();
    let ran = run_first(alloc, HELLO)?;
    check_written(&rt, alloc, &ran, HELLO_ANSWERED)?;
    assert!(rt; ran.disk.area(Area::Second) == HELLO_SECOND.as_slice());
    assert!(rt; position_in(ran.disk.area(Area::Home)) == Some(2));
    assert!(rt; ran.disk.area(Area::Journal).first() == Some(&0));
    Ok(())
}

#[test]
fn a_later_run_goes_on_from_pages(rt: HostRuntime) -> Result<(), Fail> {
    let alloc = rt.alloc();
    let first = run_first(alloc, HELLO)?;
    let disk = beside_log(alloc, &first.disk, HELLO_SECOND.as_slice())?;
    let later = run_eager(alloc, disk, LATER)?;
    check_written(&rt, alloc, &later, LATER_ANSWERED[2])?;
    assert!(rt; later.figures().opened == 3);
    // Nothing came in that is kept, so nothing is written.
    assert!(rt; later.disk.area(Area::Home) == first.disk.area(Area::Home));
    assert!(rt; later.disk.area(Area::Second) == HELLO_SECOND.as_slice());
    Ok(())
}

/// The log of a session like `HELLO`, but with another text.
const JELLO: &str = "P0~ 34~0.1.1.0.1~ 11~ 0~A~0.1.1~t5:jello 16~";

/// Requests that find the text.
const FINDS_HELLO: &[Asked] = &[
    ("34~0.1.1.0.1~", "34~"),
    ("35~A~1~1~", "35~A~"),
    ("5~1~A~1~0.1.1~1.5~", "5~1~t5:hello"),
];

const FINDS_JELLO: &[Asked] = &[
    ("34~0.1.1.0.1~", "34~"),
    ("35~A~1~1~", "35~A~"),
    ("5~1~A~1~0.1.1~1.5~", "5~1~t5:jello"),
];

const FINDS_XX: &[Asked] = &[
    ("34~0.1.1.0.1~", "34~"),
    ("35~A~1~1~", "35~A~"),
    ("5~1~A~1~0.1.1~1.5~", "5~1~t2:xx"),
];

/// A document with two inserts.
const MAKES_XX: &[Asked] = &[
    ("34~0.1.1.0.1~", "34~"),
    ("11~", "11~A~"),
    ("0~A~0.1.1~t1:x", "0~"),
    ("0~A~0.1.1~t1:x", "0~"),
];

/// A store over the pages that the session `HELLO` leaves, beside this log.
fn house_beside(alloc: Global, log: &[u8]) -> Result<House, Fail> {
    let ran = run_first(alloc, HELLO)?;
    house_over(alloc, beside_log(alloc, &ran.disk, log)?, 1)
}

/// A new session makes these requests, and is told this.
fn check_found(
    rt: &impl Abort,
    alloc: Global,
    house: &mut House,
    asked: &[Asked],
) -> Result<(), Fail> {
    let session = begin(alloc, house).ok_or("no session")?;
    asks_all(rt, alloc, house, session, asked)
}

#[test]
fn pages_of_entries_that_the_log_lacks_are_put_aside(rt: HostRuntime) -> Result<(), Fail> {
    let alloc = rt.alloc();
    let mut house = house_beside(alloc, &[])?;
    assert!(rt; house.store.flushed() == 0);
    check_found(&rt, alloc, &mut house, MAKES_XX)?;
    let mut again = reopened(alloc, &house, 0)?;
    // Three entries are in the log, and then there is the restart.
    assert!(rt; again.store.length() == 4);
    assert!(rt; again.store.flushed() == 0);
    check_found(&rt, alloc, &mut again, FINDS_XX)
}

/// The log that a session leaves.
fn house_beside_session(alloc: Global, input: &str) -> Result<House, Fail> {
    let ran = run_on(alloc, disk_failing(alloc, &[])?, input)?;
    house_beside(alloc, ran.disk.area(Area::Second))
}

#[test]
fn pages_of_another_log_are_put_aside(rt: HostRuntime) -> Result<(), Fail> {
    let alloc = rt.alloc();
    let mut house = house_beside_session(alloc, JELLO)?;
    assert!(rt; house.store.flushed() == 0);
    check_found(&rt, alloc, &mut house, FINDS_JELLO)?;
    // From here on they are pages of this log.
    assert!(rt; flushes(alloc, &mut house));
    let mut again = reopened(alloc, &house, 0)?;
    assert!(rt; again.store.flushed() == 2);
    check_found(&rt, alloc, &mut again, FINDS_JELLO)
}

#[test]
fn pages_of_the_log_are_gone_on_from(rt: HostRuntime) -> Result<(), Fail> {
    let alloc = rt.alloc();
    let mut house = house_beside_session(alloc, HELLO)?;
    assert!(rt; house.store.flushed() == 2);
    check_found(&rt, alloc, &mut house, FINDS_HELLO)
}

#[test]
fn pages_of_first_entries_are_gone_on_from(rt: HostRuntime) -> Result<(), Fail> {
    let alloc = rt.alloc();
    let mut house = house_beside_session(alloc, LONGER)?;
    assert!(rt; house.store.flushed() == 2);
    check_found(&rt, alloc, &mut house, FINDS_LONGER)?;
    assert!(rt; flushes(alloc, &mut house));
    let mut again = reopened(alloc, &house, 0)?;
    assert!(rt; again.store.flushed() == 5);
    check_found(&rt, alloc, &mut again, FINDS_LONGER)
}

/// A session like `HELLO` that goes on.
const LONGER: &str = "P0~ 34~0.1.1.0.1~ 11~ 0~A~0.1.1~t5:hello 13~A~ \
    27~A~1~A~1~0.1.2~1.2~0~0~ 12~A~0.1.1~1.2~ 16~";

const FINDS_LONGER: &[Asked] = &[
    ("34~0.1.1.0.1~", "34~"),
    ("35~A~1~1~", "35~A~"),
    ("35~0.1.1.0.1.0.1.1~1~1~", "35~0.1.1.0.1.0.1.1~"),
    ("5~1~A~1~0.1.1~0.2~", "5~2~t3:llo0.1.1.0.1.0.1.0.2.1~"),
    ("5~1~0.1.1.0.1.0.1.1~1~0.1.1~0.2~", "5~1~t5:hello"),
    ("18~0.1.1.0.1.0.1.0.2.1~1~", "18~1~A~1~0.1.1~1.1~"),
];
