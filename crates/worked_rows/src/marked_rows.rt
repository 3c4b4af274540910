//! What is published stays so when a store is opened again, with pages and without; and logs of before are private.

use crate::disk_rows::{HELLO_LOG, disk_failing, disk_with};
use crate::paged_runs::{beside_log, log_alone, run_first};
use crate::runs::HELLO;
use crate::store_rows::{Asked, House, asks_all, begin, flushes, house_over, reopened};
use green_io::{Area, Disk};
use std::alloc::Global;
use std::process::Abort;
use std::test::Fail;

/// Three documents of one account, of which the first is published: five kept entries.
const MAKES: &[Asked] = &[
    ("34~0.1.1.0.1~", "34~"),
    ("11~", "11~A~"),
    ("0~A~0.1.1~t5:hello", "0~"),
    ("11~", "11~0.1.1.0.1.0.2~"),
    ("40~A~", "40~"),
    ("11~", "11~0.1.1.0.1.0.3~"),
];

/// And behind them: the second is published too, and the first once more.
const GOES_ON: &[Asked] = &[
    ("40~0.1.1.0.1.0.2~", "40~"),
    ("0~A~0.1.6~t1:!", "0~"),
    ("40~A~", "40~"),
];

/// What a session of another account finds of both.
const FINDS: &[Asked] = &[
    ("34~0.1.1.0.2~", "34~"),
    ("35~A~1~1~", "35~A~"),
    ("5~1~A~1~0.1.1~1.9~", "5~1~t6:hello!"),
    ("35~0.1.1.0.1.0.2~1~1~", "35~0.1.1.0.1.0.2~"),
    ("14~0.1.1.0.1.0.2~", "14~0~0~"),
    ("35~0.1.1.0.1.0.3~1~1~", "?15~"),
];

/// A store with what is made, whose pages stand for all of it, and what goes on behind them.
fn marked(rt: &impl Abort, alloc: Global) -> Result<House, Fail> {
    let mut house = house_over(alloc, disk_failing(alloc, &[])?, 5)?;
    assert!(rt; begin(alloc, &mut house) == Some(1));
    asks_all(rt, alloc, &mut house, 1, MAKES)?;
    assert!(rt; flushes(alloc, &mut house));
    assert!(rt; house.store.flushed() == 5);
    asks_all(rt, alloc, &mut house, 1, GOES_ON)?;
    Ok(house)
}

/// Another account's session finds the published ones.
fn check_found(
    rt: &impl Abort,
    alloc: Global,
    house: &mut House,
    asked: &[Asked],
) -> Result<(), Fail> {
    let session = begin(alloc, house).ok_or("no session")?;
    asks_all(rt, alloc, house, session, asked)
}

#[test]
fn marks_of_before_the_pages_and_behind_them_stay(rt: HostRuntime) -> Result<(), Fail> {
    let alloc = rt.alloc();
    let house = marked(&rt, alloc)?;
    let mut again = reopened(alloc, &house, 0)?;
    assert!(rt; again.store.flushed() == 5);
    check_found(&rt, alloc, &mut again, FINDS)?;
    // Now the pages stand for all eight.
    assert!(rt; flushes(alloc, &mut again));
    let mut last = reopened(alloc, &again, 0)?;
    assert!(rt; last.store.flushed() == 8);
    check_found(&rt, alloc, &mut last, FINDS)
}

#[test]
fn marks_come_from_the_log_alone(rt: HostRuntime) -> Result<(), Fail> {
    let alloc = rt.alloc();
    let house = marked(&rt, alloc)?;
    let mut again = house_over(alloc, log_alone(alloc, &house.disk)?, 256)?;
    assert!(rt; again.store.flushed() == 0);
    check_found(&rt, alloc, &mut again, FINDS)
}

/// What another account finds where nothing was published yet.
const FINDS_NONE: &[Asked] = &[
    ("35~A~1~1~", "?15~"),
    ("34~0.1.1.0.2~", "34~"),
    ("35~A~1~1~", "?15~"),
    ("35~A~1~3~", "?15~"),
    ("30~0~0~0~0~", "30~0~"),
];

/// What the account itself does then.
const OPENS: &[Asked] = &[
    ("34~0.1.1.0.1~", "34~"),
    ("35~A~2~1~", "35~A~"),
    ("5~1~A~1~0.1.1~1.5~", "5~1~t5:hello"),
    ("40~A~", "40~"),
];

/// And what the other one finds behind it.
const FINDS_HELLO: &[Asked] = &[
    ("34~0.1.1.0.2~", "34~"),
    ("35~A~1~1~", "35~A~"),
    ("5~1~A~1~0.1.1~1.5~", "5~1~t5:hello"),
];

fn check_private(rt: &impl Abort, alloc: Global, house: &mut House) -> Result<(), Fail> {
    check_found(rt, alloc, house, FINDS_NONE)?;
    check_found(rt, alloc, house, OPENS)?;
    check_found(rt, alloc, house, FINDS_HELLO)
}

/// The log has no publish: it is such as was written before there were any, and before edits had moments. Pages that stand for it
/// are gone on from while it moves.
#[test]
fn a_log_of_before_is_private(rt: HostRuntime) -> Result<(), Fail> {
    let alloc = rt.alloc();
    let ran = run_first(alloc, HELLO)?;
    let mut disk = beside_log(alloc, &ran.disk, &[])?;
    let written = disk.write(Area::Log, 0, HELLO_LOG.as_slice());
    written.ok().ok_or("not written")?;
    let mut paged = house_over(alloc, disk, 256)?;
    assert!(rt; paged.store.flushed() == 2);
    check_private(&rt, alloc, &mut paged)?;
    let mut plain = house_over(alloc, disk_with(alloc, HELLO_LOG.as_slice())?, 256)?;
    assert!(rt; plain.store.flushed() == 0);
    check_private(&rt, alloc, &mut plain)
}
