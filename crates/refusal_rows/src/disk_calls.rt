//! A disk that fails at each call of a run that writes pages behind each edit.
//!
//! How many calls a run has made so far is counted by shorter runs, since equal runs make equal calls. An edit has four of
//! them: its body is written and synced, and then its gate. A fault at any of them refuses it. Pages come behind it, and a
//! fault there refuses nothing.

use crate::exchanges::{HELLO, Side, bytes_of, first_of};
use crate::runs::{EAGER, Ran, Streams, check_later, disk_failing, run};
use febe_data::Limits;
use green_fakes::MemoryDisk;
use green_io::{Area, Disk};
use green_store::Store;
use std::alloc::Global;
use std::process::Abort;
use std::test::Fail;

/// How many of the session's exchanges come up to its first edit, and with it.
const CREATED: usize = 3;

/// What a run comes to.
struct Outcome {
    status: u8,
    told: &'static str,
    points: &'static [u64],
    /// For how many edits pages stand in the end.
    on_pages: Option<u64>,
    /// How many edits a later run over the same disk finds.
    found: usize,
    /// How many a crash at the end leaves, at least and at most.
    least: usize,
    most: usize,
}

/// A fault while log and pages were opened.
const UNOPENED: Outcome = Outcome {
    status: 7,
    told: "",
    points: &[],
    on_pages: None,
    found: 0,
    least: 0,
    most: 0,
};

/// A fault at any other call but those of the edits.
const UNHARMED: Outcome = Outcome {
    status: 0,
    told: "P0~ 34~ 11~A~ 0~ 5~1~t5:hello 16~",
    points: &[3, 4, 5, 5, 6],
    on_pages: Some(2),
    found: 2,
    least: 2,
    most: 2,
};

/// A document that was not made: the text has no place.
const NOT_CREATED: Outcome = Outcome {
    status: 0,
    told: "P0~ 34~ ?13~ ?2~ ?2~ 16~",
    points: &[3, 3, 3, 3, 4],
    on_pages: None,
    found: 0,
    least: 0,
    most: 0,
};

/// Faults at the four calls of the first edit. Its gate may be open once it was to be written, and reads so once it was.
const FIRST: [Outcome; 4] = [
    NOT_CREATED,
    NOT_CREATED,
    Outcome {
        most: 1,
        ..NOT_CREATED
    },
    Outcome {
        found: 1,
        most: 1,
        ..NOT_CREATED
    },
];

/// A document with no text.
const NOT_INSERTED: Outcome = Outcome {
    status: 0,
    told: "P0~ 34~ 11~A~ ?13~ 5~0~ 16~",
    points: &[3, 4, 4, 4, 5],
    on_pages: Some(1),
    found: 1,
    least: 1,
    most: 1,
};

/// Faults at the four calls of the second edit.
const SECOND: [Outcome; 4] = [
    NOT_INSERTED,
    NOT_INSERTED,
    Outcome {
        most: 2,
        ..NOT_INSERTED
    },
    Outcome {
        found: 2,
        most: 2,
        ..NOT_INSERTED
    },
];

/// A call that no run here comes to.
pub(crate) const FAR: u64 = 1_000;

/// How many calls a disk has made whose call [`FAR`] fails: as many fewer as it can still make before that one.
pub(crate) fn calls_made(disk: &mut MemoryDisk) -> u64 {
    for left in 0..FAR {
        let Ok(_) = disk.length(Area::Log) else {
            return FAR - 1 - left;
        };
    }
    0
}

/// Runs the first so many requests of the session, with pages behind each edit.
fn run_first(alloc: Global, count: usize, disk: MemoryDisk) -> Result<Ran, Fail> {
    let input = first_of(alloc, HELLO, Side::Requests, count)?;
    Ok(run(alloc, EAGER, Streams::new(alloc, input), disk)?)
}

/// How many calls such a run makes.
fn calls_of(alloc: Global, count: usize) -> Result<u64, Fail> {
    let ran = run_first(alloc, count, disk_failing(alloc, &[FAR])?)?;
    let mut disk = ran.into_disk();
    Ok(calls_made(&mut disk))
}

/// How many calls of the disk come before the first edit, before the second one, and in all.
#[derive(Clone, Copy)]
struct Course {
    create: u64,
    insert: u64,
    end: u64,
}

impl Course {
    fn new(alloc: Global) -> Result<Course, Fail> {
        Ok(Course {
            create: calls_of(alloc, 0)?,
            insert: calls_of(alloc, CREATED)?,
            end: calls_of(alloc, HELLO.len())?,
        })
    }

    /// What comes of a fault at this call, the first of which has the number 1.
    fn outcome(&self, call: u64) -> &'static Outcome {
        if call <= self.create {
            return &UNOPENED;
        }
        if let Some(outcome) = of_edit(&FIRST, call.saturating_sub(self.create)) {
            return outcome;
        }
        of_edit(&SECOND, call.saturating_sub(self.insert)).unwrap_or(&UNHARMED)
    }
}

/// What comes of a fault at this call of an edit, if it is one of its four.
fn of_edit(edit: &'static [Outcome; 4], call: u64) -> Option<&'static Outcome> {
    let before = call.checked_sub(1)?;
    edit.as_slice().get(before as usize)
}

/// How many edits a header says that its trees stand for: the number behind its mark. Nothing where there is no header.
fn position_in(home: &[u8]) -> Option<u64> {
    if home.len() < 4096 || !home.starts_with(b"GREENPG1") {
        return None;
    }
    let mut position: u64 = 0;
    for byte in &home[8..16] {
        position = position.wrapping_mul(256).wrapping_add(u64::from(*byte));
    }
    Some(position)
}

/// What the run was told, and what it left on pages.
fn check_outcome(
    rt: &impl Abort,
    alloc: Global,
    ran: &Ran,
    outcome: &Outcome,
    call: u64,
) -> Result<(), Fail> {
    assert!(rt; ran.status == outcome.status, "at {call}");
    assert!(rt;
        ran.written() == bytes_of(alloc, outcome.told)?.as_slice(),
        "at {call}"
    );
    assert!(rt; ran.points() == outcome.points, "at {call}");
    let position = position_in(ran.disk.area(Area::Home));
    assert!(rt; position == outcome.on_pages, "at {call}");
    Ok(())
}

/// How many edits an image of the disk is opened with.
pub(crate) fn count_left(alloc: Global, disk: &MemoryDisk, pick: u64) -> Result<usize, Fail> {
    let limits = Limits::new(1000, 1_000_000, 1)?;
    let mut image = disk.crash(u64::MAX, pick)?;
    let store = Store::open(alloc, &mut image, limits)?;
    Ok(store.history().len().checked_sub(1).ok_or("no restart")?)
}

fn check_images(
    rt: &impl Abort,
    alloc: Global,
    disk: &MemoryDisk,
    outcome: &Outcome,
    call: u64,
) -> Result<(), Fail> {
    for pick in 0..4u64 {
        let left = count_left(alloc, disk, pick)?;
        assert!(rt;
            outcome.least <= left && left <= outcome.most,
            "at {call} {pick}"
        );
    }
    Ok(())
}

/// This call fails, if it is made. Tells whether it was.
fn check_call(rt: &impl Abort, alloc: Global, course: &Course, call: u64) -> Result<bool, Fail> {
    let ran = run_first(alloc, HELLO.len(), disk_failing(alloc, &[call])?)?;
    let failed = ran.disk.faults() > 0;
    let outcome = course.outcome(call);
    check_outcome(rt, alloc, &ran, outcome, call)?;
    if failed {
        check_images(rt, alloc, &ran.disk, outcome, call)?;
        check_later(rt, alloc, EAGER, ran.into_disk(), outcome.found, call)?;
    }
    Ok(failed)
}

#[test]
fn a_disk_fails_at_each_call(rt: HostRuntime) -> Result<(), Fail> {
    let alloc = rt.alloc();
    let course = Course::new(alloc)?;
    let mut calls: u64 = 0;
    for before in 0..FAR {
        if !check_call(&rt, alloc, &course, before.saturating_add(1))? {
            break;
        }
        calls = calls.saturating_add(1);
    }
    // Behind each edit come calls that write its pages.
    assert!(rt; course.create.saturating_add(4) < course.insert);
    assert!(rt; course.insert.saturating_add(4) < course.end);
    assert!(rt; calls == course.end);
    Ok(())
}
