//! Saves of two pages, and of the page that makes them count, at each moment and with each of their calls failing.
//!
//! Five calls open a journal on an empty disk. The pages 1 and 2 take the next nine, and page 0 eight more.

use crate::pages::{Seen, next_pages, one_page, see_all, see_image};
use febe_data::List;
use green_fakes::MemoryDisk;
use page_journal::{PageFault, PageJournal};
use page_saves::write_all;
use std::alloc::Global;
use std::process::Abort;
use std::test::Fail;

/// How many calls a save has on an empty disk, with those that open the journal.
const CALLS: u64 = 22;

/// Writes the pages 1 and 2, and then page 0.
fn save(alloc: Global, journal: &mut PageJournal, disk: &mut MemoryDisk) -> Result<(), PageFault> {
    let pages = next_pages(alloc)?;
    let last = one_page(alloc, 0)?;
    write_all(journal, alloc, disk, pages.as_slice(), &last)
}

/// Whether page 0 is new only where the pages that it makes count are.
fn counts(seen: [Seen; 4]) -> bool {
    seen[0] != Seen::New || (seen[1] == Seen::New && seen[2] == Seen::New)
}

/// Checks so many images of each moment.
fn check_images(
    rt: &impl Abort,
    alloc: Global,
    disk: &MemoryDisk,
    moments: u64,
    picks: u64,
) -> Result<(), Fail> {
    for image in 0..moments.saturating_mul(16) {
        let moment = image / 16;
        let pick = image % 16;
        if pick < picks {
            let holds = match see_image(alloc, disk, moment, pick) {
                Ok(seen) => counts(seen),
                Err(_) => false,
            };
            assert!(rt; holds, "at {moment} {pick}");
        }
    }
    Ok(())
}

/// What the pages are behind a save that may fail, and behind one more.
fn save_twice(
    alloc: Global,
    disk: &mut MemoryDisk,
    first: Result<(), PageFault>,
) -> Result<[Seen; 4], PageFault> {
    let mut journal = PageJournal::open(alloc, disk)?;
    if save(alloc, &mut journal, disk) != first {
        return Err(PageFault::Memory);
    }
    save(alloc, &mut journal, disk)?;
    see_all(alloc, &journal, disk)
}

/// The pages that both saves write.
const SAVED: [Seen; 4] = [Seen::New, Seen::New, Seen::New, Seen::Gone];

/// At no moment of two saves is page 0 there before the pages that it makes count.
#[test]
fn a_save_at_each_moment(rt: HostRuntime) -> Result<(), Fail> {
    let alloc = rt.alloc();
    let mut disk = MemoryDisk::new(alloc, List::new(alloc));
    let seen = save_twice(alloc, &mut disk, Ok(()));
    assert!(&rt; seen == Ok(SAVED));
    check_images(&rt, alloc, &disk, CALLS.saturating_add(18), 6)
}

/// Nor is it where a call of the first save fails, of each phase of both its commits; and the second save writes all.
#[test]
fn a_save_that_fails_and_one_more(rt: HostRuntime) -> Result<(), Fail> {
    let alloc = rt.alloc();
    for failing in [6u64, 8, 10, 12, 14, 15, 17, 19, 21] {
        let mut disk = MemoryDisk::new(alloc, List::from_slice(alloc, &[failing])?);
        let seen = save_twice(alloc, &mut disk, Err(PageFault::Disk));
        assert!(&rt; seen == Ok(SAVED), "at {failing}");
        check_images(&rt, alloc, &disk, CALLS, 1)?;
    }
    Ok(())
}
