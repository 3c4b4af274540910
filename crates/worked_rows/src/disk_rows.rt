//! Runs over disks: what they leave in the log, what a later run finds there, and disks that fail or are damaged.

use crate::runs::{HELLO, HELLO_ANSWERED, Kind, Ran, WORDS, run_over, sink_of, source_of};
use crate::sessions::bytes_of;
use febe_data::{List, Memory};
use green_fakes::MemoryDisk;
use green_io::{Area, Disk};
use std::alloc::Global;
use std::process::Abort;
use std::test::Fail;

/// The log after the first run: behind a gate of its own the document that session 1 made, and the five bytes that it put in, each
/// behind a gate and with the moment that the clock gave to its step.
pub(crate) const HELLO_SECOND: [u8; 143] = [
    1, 1, 0, 0, 0, 0, 0, 0, 0, 51, 2, 0, 0, 0, 0, 0, 0, 3, 235, 0, 0, 0, 0, 0, 0, 0, 1, 0, 0, 0, 0,
    0, 0, 0, 3, 1, 6, 0, 0, 0, 1, 0, 0, 0, 1, 0, 0, 0, 0, 0, 0, 0, 1, 0, 0, 0, 0, 0, 0, 0, 1, 1, 0,
    0, 0, 0, 0, 0, 0, 72, 2, 0, 0, 0, 0, 0, 0, 3, 237, 0, 0, 0, 0, 0, 0, 0, 1, 0, 0, 0, 0, 0, 0, 0,
    4, 4, 6, 0, 0, 0, 1, 0, 0, 0, 1, 0, 0, 0, 0, 0, 0, 0, 1, 0, 0, 0, 0, 0, 0, 0, 1, 0, 0, 0, 1, 0,
    0, 0, 1, 0, 0, 0, 0, 0, 0, 0, 5, 104, 101, 108, 108, 111, 0,
];

/// The same log as it was kept before each edit had its moment.
pub(crate) const HELLO_LOG: [u8; 114] = [
    1, 0, 0, 0, 43, 1, 0, 0, 0, 0, 0, 0, 0, 1, 0, 0, 0, 0, 0, 0, 0, 3, 1, 6, 0, 0, 0, 1, 0, 0, 0,
    1, 0, 0, 0, 0, 0, 0, 0, 1, 0, 0, 0, 0, 0, 0, 0, 1, 1, 0, 0, 0, 60, 1, 0, 0, 0, 0, 0, 0, 0, 1,
    0, 0, 0, 0, 0, 0, 0, 4, 4, 6, 0, 0, 0, 1, 0, 0, 0, 1, 0, 0, 0, 0, 0, 0, 0, 1, 0, 0, 0, 0, 0, 0,
    0, 1, 0, 0, 0, 1, 0, 0, 0, 1, 0, 0, 0, 5, 104, 101, 108, 108, 111, 0,
];

/// A log with the one document that the session of the greatest number made.
const LAST_SESSION: [u8; 49] = [
    1, 0, 0, 0, 43, 1, 255, 255, 255, 255, 255, 255, 255, 255, 0, 0, 0, 0, 0, 0, 0, 1, 1, 6, 0, 0,
    0, 1, 0, 0, 0, 1, 0, 0, 0, 0, 0, 0, 0, 1, 0, 0, 0, 0, 0, 0, 0, 1, 0,
];

/// A disk of which these calls fail.
pub(crate) fn disk_failing(alloc: Global, failing: &[u64]) -> Result<MemoryDisk, Memory> {
    Ok(MemoryDisk::new(alloc, List::from_slice(alloc, failing)?))
}

/// A call that no run here comes to.
pub(crate) const FAR: u64 = 1_000;

/// How many calls a disk has made whose call [`FAR`] fails: as many fewer as it can still make before that one.
pub(crate) fn calls_made(disk: &mut MemoryDisk) -> u64 {
    for left in 0..FAR {
        let Ok(_) = disk.length(Area::Log) else {
            return FAR - 1 - left;
        };
    }
    0
}

/// How many calls a run makes of an empty disk that opens it and does nothing else.
pub(crate) fn calls_to_open(alloc: Global) -> Result<u64, Fail> {
    let mut ran = run_on(alloc, disk_failing(alloc, &[FAR])?, "")?;
    Ok(calls_made(&mut ran.disk))
}

/// A disk with these bytes in the log of before.
pub(crate) fn disk_with(alloc: Global, log: &[u8]) -> Result<MemoryDisk, Memory> {
    let mut disk = disk_failing(alloc, &[])?;
    let Ok(()) = disk.write(Area::Log, 0, log) else {
        return Err(Memory);
    };
    Ok(disk)
}

/// Runs a session over a disk.
pub(crate) fn run_on(alloc: Global, disk: MemoryDisk, input: &str) -> Result<Ran, Fail> {
    let source = source_of(alloc, bytes_of(alloc, input)?, None, &[])?;
    let sink = sink_of(alloc, &[])?;
    Ok(run_over(alloc, WORDS, source, sink, disk)?)
}

fn check_output(rt: &impl Abort, alloc: Global, ran: &Ran, output: &str) -> Result<(), Fail> {
    assert_eq!(rt; ran.status, 0);
    assert_eq!(rt; ran.written(), bytes_of(alloc, output)?.as_slice());
    Ok(())
}

#[test]
fn a_run_leaves_its_log(rt: HostRuntime) -> Result<(), Fail> {
    let alloc = rt.alloc();
    let ran = run_on(alloc, disk_failing(alloc, &[])?, HELLO)?;
    check_output(&rt, alloc, &ran, HELLO_ANSWERED)?;
    assert_eq!(rt; ran.disk.area(Area::Second), HELLO_SECOND.as_slice());
    assert!(rt; ran.disk.area(Area::Log).is_empty());
    assert_eq!(rt; ran.report.moments.as_slice(), [1003, 1005].as_slice());
    assert!(rt; ran.disk.area(Area::Home).is_empty());
    assert!(rt; ran.disk.area(Area::Journal) == [0].as_slice());
    Ok(())
}

#[test]
fn a_later_run_finds_the_text(rt: HostRuntime) -> Result<(), Fail> {
    let alloc = rt.alloc();
    let disk = disk_with(alloc, HELLO_LOG.as_slice())?;
    let ran = run_on(alloc, disk, "P0~34~0.1.1.0.1~35~A~1~1~5~1~A~1~0.1.1~1.5~")?;
    check_output(&rt, alloc, &ran, "P0~ 34~ 35~A~ 5~1~t5:hello")?;
    assert_eq!(rt; ran.report.opened, 3);
    assert_eq!(rt; ran.points(), [5, 6, 6].as_slice());
    let marks = ran.marks(alloc)?;
    let wanted = [
        (Kind::Create, 1, 3),
        (Kind::Insert, 1, 4),
        (Kind::Restart, 0, 0),
        (Kind::Begin, 2, 1),
        (Kind::Account, 2, 2),
        (Kind::Open, 2, 3),
        (Kind::End, 2, 4),
    ];
    assert_eq!(rt; marks.as_slice(), wanted.as_slice());
    Ok(())
}

/// A log, the input of a run, and its status, output and place.
type Logged = (&'static [u8], &'static str, u8, &'static str, u64);

const LOGGED: &[Logged] = &[
    (&[1, 0, 0, 0, 0, 0], "P0~34~0.1.1.0.1~", 8, "", 0),
    (&[1], "P0~34~0.1.1.0.1~", 0, "P0~34~", 0),
    (&LAST_SESSION, "P0~", 11, "", 0),
];

fn check_logged(rt: &impl Abort, alloc: Global, row: &Logged) -> Result<(), Fail> {
    let (log, input, status, output, place) = *row;
    let ran = run_on(alloc, disk_with(alloc, log)?, input)?;
    assert_eq!(rt; ran.status, status, "at {log:?}");
    assert_eq!(rt;
        ran.written(),
        bytes_of(alloc, output)?.as_slice(),
        "at {log:?}"
    );
    assert_eq!(rt; ran.report.place, place, "at {log:?}");
    Ok(())
}

#[test]
fn a_log_decides_how_a_run_begins(rt: HostRuntime) -> Result<(), Fail> {
    for row in LOGGED {
        check_logged(&rt, rt.alloc(), row)?;
    }
    Ok(())
}

/// Each edit has four calls: its body is written and synced, then its gate. The number is counted from the opening's calls on.
type Failing = (u64, &'static str);

const FAILING: &[Failing] = &[
    (1, "P0~ 34~ ?13~ ?2~ ?2~ 16~"),
    (2, "P0~ 34~ ?13~ ?2~ ?2~ 16~"),
    (3, "P0~ 34~ ?13~ ?2~ ?2~ 16~"),
    (4, "P0~ 34~ ?13~ ?2~ ?2~ 16~"),
    (5, "P0~ 34~ 11~A~ ?13~ 5~0~ 16~"),
    (6, "P0~ 34~ 11~A~ ?13~ 5~0~ 16~"),
    (7, "P0~ 34~ 11~A~ ?13~ 5~0~ 16~"),
    (8, "P0~ 34~ 11~A~ ?13~ 5~0~ 16~"),
    (9, HELLO_ANSWERED),
];

fn check_failing(
    rt: &impl Abort,
    alloc: Global,
    call: u64,
    status: u8,
    output: &str,
) -> Result<(), Fail> {
    let ran = run_on(alloc, disk_failing(alloc, &[call])?, HELLO)?;
    assert_eq!(rt; ran.status, status, "at {call}");
    assert_eq!(rt;
        ran.written(),
        bytes_of(alloc, output)?.as_slice(),
        "at {call}"
    );
    Ok(())
}

#[test]
fn a_disk_fails_at_each_call_of_an_edit(rt: HostRuntime) -> Result<(), Fail> {
    let alloc = rt.alloc();
    let opening = calls_to_open(alloc)?;
    for (behind, output) in FAILING {
        let call = opening.saturating_add(*behind);
        check_failing(&rt, alloc, call, 0, output)?;
    }
    Ok(())
}

#[test]
fn a_disk_fails_at_each_call_that_opens_it(rt: HostRuntime) -> Result<(), Fail> {
    let alloc = rt.alloc();
    let opening = calls_to_open(alloc)?;
    assert!(rt; opening > 4);
    for before in 0..opening {
        check_failing(&rt, alloc, before.saturating_add(1), 7, "")?;
    }
    Ok(())
}
