//! What a crash leaves at each moment of two commits, where a fault stops the first.
//!
//! Five calls open a journal on an empty disk, and the nine of the first commit come next: its record is written and
//! synced, and its gate, then two pages are written and synced, and its gate. The second commit has eight calls, and
//! before them those by which it finishes the first one.
ghost use Rattle.std.specs.Prelude.{◌<◌};

use crate::pages::{Seen, first_pages, one_page, see_all, see_image};
use febe_data::List;
use green_fakes::MemoryDisk;
use page_journal::{PageFault, PageJournal};
use std::alloc::Global;
use std::process::Abort;
use std::test::Fail;

/// Two commits, of which the first has a fault.
#[derive(Clone, Copy)]
struct Run {
    /// The call that fails.
    failing: u64,
    /// How many calls there were when the second commit ended.
    calls: u64,
    /// Whether the first commit is kept, to be finished by the second.
    kept: bool,
}

/// What opening may give on an image.
#[derive(Clone, Copy)]
struct Allowed {
    /// No page at all.
    before: bool,
    /// The pages of the first commit.
    first: bool,
    /// The page of the second commit, over no other page.
    second: bool,
    /// The page of the second commit over those of the first.
    both: bool,
}

/// What was before the first commit.
const BEFORE: [Seen; 4] = [Seen::Gone, Seen::Gone, Seen::Gone, Seen::Gone];

/// Whether the pages are some that are allowed. A page that a commit is to is new once the commit is there; of others
/// that were past the end nothing is said then.
fn is_allowed(seen: [Seen; 4], allowed: Allowed) -> bool {
    let first = seen[0] == Seen::New && seen[1] == Seen::New;
    let second = seen[2] == Seen::New;
    if allowed.before && seen == BEFORE {
        return true;
    }
    if allowed.first && first {
        return true;
    }
    if allowed.second && second {
        return true;
    }
    allowed.both && first && second
}

/// What is allowed after so many calls.
fn allowed_at(run: Run, moment: u64) -> Allowed {
    let ended = moment >= run.calls;
    if moment <= run.failing {
        return Allowed {
            before: true,
            first: moment > 5,
            second: false,
            both: false,
        };
    }
    Allowed {
        before: !ended,
        first: run.kept && !ended,
        second: !run.kept,
        both: true,
    }
}

/// Checks the images of each pick.
fn check_moment(
    rt: &impl Abort,
    alloc: Global,
    disk: &MemoryDisk,
    moment: u64,
    allowed: Allowed,
) -> Result<(), Fail> {
    for pick in 0..16u64 {
        let holds = match see_image(alloc, disk, moment, pick) {
            Ok(seen) => is_allowed(seen, allowed),
            Err(_) => false,
        };
        assert!(rt; holds, "at {moment} {pick}");
    }
    Ok(())
}

/// Checks each moment, and one that is past the end.
fn check_moments(rt: &impl Abort, alloc: Global, disk: &MemoryDisk, run: Run) -> Result<(), Fail> {
    for moment in 0..run.calls.saturating_add(1) {
        check_moment(rt, alloc, disk, moment, allowed_at(run, moment))?;
    }
    Ok(())
}

/// Opens a journal, and commits the pages 0 and 1, which stops.
fn stopped(
    rt: &impl Abort,
    alloc: Global,
    disk: &mut MemoryDisk,
) -> Result<PageJournal, PageFault> {
    let mut journal = PageJournal::open(alloc, disk)?;
    let pages = first_pages(alloc)?;
    let answer = journal.commit(alloc, disk, &pages);
    assert!(rt; answer == Err(PageFault::Disk));
    Ok(journal)
}

/// Commits one page.
fn commit_one(
    alloc: Global,
    journal: &mut PageJournal,
    disk: &mut MemoryDisk,
    number: u64,
) -> Result<(), PageFault>
    requires { number < 1099511627776 }
{
    let pages = one_page(alloc, number)?;
    journal.commit(alloc, disk, &pages)
}

/// Makes both commits of a run, and gives what the pages are then. The call behind the last one is to fail.
fn make_run(rt: &impl Abort, alloc: Global, disk: &mut MemoryDisk) -> Result<[Seen; 4], PageFault> {
    let mut journal = stopped(rt, alloc, disk)?;
    commit_one(alloc, &mut journal, disk, 2)?;
    let counted = see_all(alloc, &journal, disk);
    assert!(rt; counted == Err(PageFault::Disk));
    see_all(alloc, &journal, disk)
}

/// Checks the images of a run, and the pages that are there at its end.
fn check_run(rt: &impl Abort, alloc: Global, run: Run) -> Result<(), Fail> {
    let failing = List::from_slice(alloc, &[run.failing, run.calls.saturating_add(1)])?;
    let mut disk = MemoryDisk::new(alloc, failing);
    let one = if run.kept { Seen::New } else { Seen::Zeros };
    let seen = make_run(rt, alloc, &mut disk);
    assert!(rt; seen == Ok([one, one, Seen::New, Seen::Gone]));
    check_moments(rt, alloc, &disk, run)
}

/// The fault is at the record, or at its sync.
#[test]
fn a_commit_that_is_dropped(rt: HostRuntime) -> Result<(), Fail> {
    for (failing, calls) in [(6u64, 14u64), (7, 15)] {
        let run = Run {
            failing,
            calls,
            kept: false,
        };
        check_run(&rt, rt.alloc(), run)?;
    }
    Ok(())
}

/// Checks runs whose second commit finishes the first.
fn check_kept(rt: &impl Abort, alloc: Global, runs: &[(u64, u64)]) -> Result<(), Fail> {
    for (failing, calls) in runs {
        let run = Run {
            failing: *failing,
            calls: *calls,
            kept: true,
        };
        check_run(rt, alloc, run)?;
    }
    Ok(())
}

/// The gate is opened anew, the pages are laid, and the gate is closed, by seven calls.
#[test]
fn a_commit_that_stops_at_its_gate(rt: HostRuntime) -> Result<(), Fail> {
    check_kept(&rt, rt.alloc(), &[(8, 23), (9, 24)])
}

/// The pages are laid anew, and the gate is closed, by five calls.
#[test]
fn a_commit_that_stops_at_its_pages(rt: HostRuntime) -> Result<(), Fail> {
    check_kept(&rt, rt.alloc(), &[(10, 23), (11, 24)])
}

/// As before, where the pages were not synced.
#[test]
fn a_commit_that_stops_at_the_sync_of_its_pages(rt: HostRuntime) -> Result<(), Fail> {
    check_kept(&rt, rt.alloc(), &[(12, 25)])
}

/// The gate is closed anew, by two calls.
#[test]
fn a_commit_that_stops_at_its_end(rt: HostRuntime) -> Result<(), Fail> {
    check_kept(&rt, rt.alloc(), &[(13, 23), (14, 24)])
}

/// Whether an image has page 3 as it was given, and in page 2 other bytes than were ever given for it.
fn has_filled(alloc: Global, disk: &MemoryDisk, moment: u64, pick: u64) -> bool {
    match see_image(alloc, disk, moment, pick) {
        Ok(seen) => seen[3] == Seen::New && seen[2] == Seen::Other,
        Err(_) => false,
    }
}

/// How many images of these moments have page 2 filled.
fn count_filled(alloc: Global, disk: &MemoryDisk, from: u64, to: u64) -> u64 {
    let mut count = 0u64;
    for image in from.saturating_mul(16)..to.saturating_mul(16) {
        if has_filled(alloc, disk, image / 16, image % 16) {
            count = count.saturating_add(1);
        }
    }
    count
}

/// A commit of page 3 stops, and one of page 2 finishes it first.
fn make_filling(rt: &impl Abort, alloc: Global, disk: &mut MemoryDisk) -> Result<(), PageFault> {
    let mut journal = PageJournal::open(alloc, disk)?;
    let answer = commit_one(alloc, &mut journal, disk, 3);
    assert!(rt; answer == Err(PageFault::Disk));
    commit_one(alloc, &mut journal, disk, 2)
}

/// The commit of page 3 stops at its page, the tenth call. That of page 2 finishes it by four calls, and a crash amid
/// them may fill page 2, which stands before page 3. Once they are done no crash does.
#[test]
fn a_page_that_is_filled_before_its_commit(rt: HostRuntime) -> Result<(), Fail> {
    let alloc = rt.alloc();
    let mut disk = MemoryDisk::new(alloc, List::from_slice(alloc, &[10])?);
    let made = make_filling(&rt, alloc, &mut disk);
    assert!(rt; made == Ok(()));
    assert!(rt; count_filled(alloc, &disk, 11, 12) > 0);
    assert!(rt; count_filled(alloc, &disk, 15, 23) == 0);
    Ok(())
}
