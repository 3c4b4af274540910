//! A store behind no lock yet, as a pass would play it. The expected values are worked out by hand.

use febe_data::{Limits, List};
use green_fakes::MemoryDisk;
use green_store::{HouseJob, Housed, StepAnswer, Store, Timed};
use history_lock::Kept;
use std::alloc::Global;
use std::process::Abort;
use std::test::Fail;

/// A store that has just opened, with its disk: one entry.
fn housed(rt: &impl Abort, alloc: Global) -> Result<Housed<MemoryDisk>, Fail> {
    let mut disk = MemoryDisk::new(alloc, List::new(alloc));
    let store = Store::open(alloc, &mut disk, Limits::new(100, 1_000, 10)?)?;
    let housed = Housed::new(store, disk);
    assert_eq!(rt; housed.count(), 1);
    Ok(housed)
}

/// A job at a moment.
fn at_moment(moment: u64, job: HouseJob) -> Timed {
    Timed { moment, job }
}

#[test]
fn a_number_begins_once(rt: HostRuntime) -> Result<(), Fail> {
    let alloc = rt.alloc();
    let mut housed = housed(&rt, alloc)?;
    let begun = housed.play(alloc, 0, at_moment(11, HouseJob::Begin));
    assert!(rt; matches!(&begun.answer, StepAnswer::Begun { session: 1 }));
    assert_eq!(rt; (begun.number, housed.last), (1, 11));
    let again = housed.play(alloc, 1, at_moment(12, HouseJob::Begin));
    assert!(rt; matches!(&again.answer, StepAnswer::NoSession));
    assert_eq!(rt; (again.number, housed.count(), housed.last), (1, 2, 12));
    let idle = housed.play(alloc, 1, at_moment(5, HouseJob::Background));
    assert!(rt; matches!(&idle.answer, StepAnswer::Idle));
    assert_eq!(rt; housed.last, 5);
    let ended = housed.play(alloc, 1, at_moment(13, HouseJob::End));
    assert!(rt; matches!(&ended.answer, StepAnswer::Ended));
    assert_eq!(rt; (ended.number, housed.count(), housed.last), (1, 3, 13));
    Ok(())
}
