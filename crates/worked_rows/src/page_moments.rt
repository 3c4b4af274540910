//! What a crash leaves at each moment of a run that writes pages.
//!
//! How many calls a run has made so far is counted by shorter runs, since equal runs make equal calls. An edit has four of
//! them: it may be there from its first one on, and is there once its fourth has returned. Pages come behind it.

use crate::disk_rows::{FAR, calls_made, disk_failing};
use crate::paged_runs::{LATER, LATER_ANSWERED, position_in, run_eager, run_first};
use crate::runs::{HELLO, Kind, Mark, RESTART, Ran};
use crate::sessions::bytes_of;
use green_fakes::MemoryDisk;
use green_io::Area;
use std::alloc::{AllocError, Global};
use std::process::Abort;
use std::test::Fail;

/// A session that keeps nothing, and one that makes the document.
const GREETED: &str = "P0~ 34~0.1.1.0.1~";

const CREATED: &str = "P0~ 34~0.1.1.0.1~ 11~";

/// How many calls of the disk come before the first edit, before the second one, and in all.
#[derive(Clone, Copy)]
struct Course {
    create: u64,
    insert: u64,
    end: u64,
}

/// How many calls a run makes.
fn calls_of(alloc: Global, input: &str) -> Result<u64, Fail> {
    let mut ran = run_eager(alloc, disk_failing(alloc, &[FAR])?, input)?;
    Ok(calls_made(&mut ran.disk))
}

impl Course {
    fn new(alloc: Global) -> Result<Course, Fail> {
        Ok(Course {
            create: calls_of(alloc, GREETED)?,
            insert: calls_of(alloc, CREATED)?,
            end: calls_of(alloc, HELLO)?,
        })
    }

    /// How many edits are there for sure once so many calls have returned.
    fn least(&self, moment: u64) -> usize {
        if moment < self.create.saturating_add(4) {
            return 0;
        }
        if moment < self.insert.saturating_add(4) {
            return 1;
        }
        2
    }

    /// How many edits may be there then.
    fn most(&self, moment: u64) -> usize {
        if moment <= self.create {
            return 0;
        }
        if moment <= self.insert {
            return 1;
        }
        2
    }
}

/// The edits of the run.
const EDITS: [Mark; 2] = [(Kind::Create, 1, 3), (Kind::Insert, 1, 4)];

/// The first `kept` edits of the run, and a restart.
fn prefix_of(alloc: Global, kept: usize) -> Result<Vec<Mark>, AllocError> {
    let mut marks = Vec::new(alloc);
    for (before, edit) in EDITS.iter().enumerate() {
        if before < kept {
            marks.push(*edit)?;
        }
    }
    marks.push(RESTART)?;
    Ok(marks)
}

/// The run began with the first `kept` edits and a restart, and was answered by them.
fn check_prefix(rt: &impl Abort, alloc: Global, ran: &Ran, kept: usize) -> Result<(), Fail> {
    let marks = ran.marks(alloc)?;
    assert!(rt;
        marks
            .as_slice()
            .starts_with(prefix_of(alloc, kept)?.as_slice())
    );
    let answered = LATER_ANSWERED.get(kept).ok_or("too many edits")?;
    assert!(rt; ran.written() == bytes_of(alloc, answered)?.as_slice());
    Ok(())
}

/// Runs a later session over an image, which then has pages for its edits, if it has one.
fn check_image(
    rt: &impl Abort,
    alloc: Global,
    image: MemoryDisk,
    least: usize,
    most: usize,
) -> Result<(), Fail> {
    let ran = run_eager(alloc, image, LATER)?;
    let opened = ran.figures().opened as usize;
    let kept = opened.checked_sub(1).ok_or("no restart")?;
    assert!(rt; least <= kept && kept <= most);
    check_prefix(rt, alloc, &ran, kept)?;
    let position = position_in(ran.disk.area(Area::Home));
    assert!(rt; kept == 0 || position == Some(kept as u64));
    Ok(())
}

/// Checks the images of all picks once so many calls have returned.
fn check_moment(
    rt: &impl Abort,
    alloc: Global,
    course: &Course,
    disk: &MemoryDisk,
    moment: u64,
) -> Result<(), Fail> {
    for pick in 0..16u64 {
        let image = disk.crash(moment, pick)?;
        check_image(rt, alloc, image, course.least(moment), course.most(moment))?;
    }
    Ok(())
}

/// Checks each fourth moment of the run, from this one on.
fn check_each_fourth(rt: &impl Abort, alloc: Global, from: u64) -> Result<(), Fail> {
    let course = Course::new(alloc)?;
    let ran = run_first(alloc, HELLO)?;
    assert!(rt; course.create.saturating_add(4) < course.insert);
    assert!(rt; course.insert.saturating_add(4) < course.end);
    for moment in 0..course.end.saturating_add(1) {
        if moment % 4 == from {
            check_moment(rt, alloc, &course, &ran.disk, moment)?;
        }
    }
    Ok(())
}

#[test]
fn images_of_a_run_with_pages_have_each_acknowledged_edit_first(
    rt: HostRuntime,
) -> Result<(), Fail> {
    check_each_fourth(&rt, rt.alloc(), 0)
}

#[test]
fn images_of_a_run_with_pages_have_each_acknowledged_edit_second(
    rt: HostRuntime,
) -> Result<(), Fail> {
    check_each_fourth(&rt, rt.alloc(), 1)
}

#[test]
fn images_of_a_run_with_pages_have_each_acknowledged_edit_third(
    rt: HostRuntime,
) -> Result<(), Fail> {
    check_each_fourth(&rt, rt.alloc(), 2)
}

#[test]
fn images_of_a_run_with_pages_have_each_acknowledged_edit_fourth(
    rt: HostRuntime,
) -> Result<(), Fail> {
    check_each_fourth(&rt, rt.alloc(), 3)
}
