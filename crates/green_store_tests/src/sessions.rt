//! Two sessions in one store over a disk in memory, and a disk of which each call fails once. The expected values are
//! worked out by hand.

use febe_data::{Change, Entry, Limits, List, Mode, Refusal, Reply, Request, Rule, Tumbler};
use green_fakes::MemoryDisk;
use green_store::{OpenFault, Step, StepAnswer, Store};
use std::alloc::Global;
use std::process::Abort;
use std::test::Fail;

const ACCOUNT: [u32; 4] = [1, 1, 0, 1];

pub(crate) const DOCUMENT: [u32; 6] = [1, 1, 0, 1, 0, 1];

/// A store, and the disk that it is over.
pub(crate) struct Opened {
    pub(crate) disk: MemoryDisk,
    pub(crate) store: Store,
}

/// By hand, so that a caller's exits do not look into the fields.
impl Drop for Opened {
    fn drop(self) {
        let Opened { disk: _, store: _ } = self;
    }
}

impl Opened {
    fn into_history(self) -> List<Entry> {
        let Opened { disk: _, store } = self;
        store.into_history()
    }

    pub(crate) fn begins(&mut self, rt: &impl Abort, alloc: Global) -> u64 {
        match self.store.step(alloc, &mut self.disk, 7, Step::Begin) {
            StepAnswer::Begun { session } => session,
            _ => panic!(rt; "no session began"),
        }
    }

    /// The session's request is answered, and there are so many entries then.
    pub(crate) fn asks(
        &mut self,
        rt: &impl Abort,
        alloc: Global,
        session: u64,
        request: Request,
        entries: u64,
    ) -> Reply {
        let step = Step::Ask { session, request };
        match self.store.step(alloc, &mut self.disk, 7, step) {
            StepAnswer::Reply { reply, point } => {
                assert_eq!(rt; point, entries);
                reply
            }
            _ => panic!(rt; "the session is not live"),
        }
    }

    /// The session chooses the account.
    pub(crate) fn chooses(
        &mut self,
        rt: &impl Abort,
        alloc: Global,
        session: u64,
        entries: u64,
    ) -> Result<(), Fail> {
        let account = Tumbler::from_places(alloc, &ACCOUNT)?;
        let reply = self.asks(rt, alloc, session, Request::Account { account }, entries);
        assert!(rt; matches!(&reply, Reply::AccountSet));
        Ok(())
    }
}

/// A store with sessions 1 and 2 of one account, and a document that session 1 has made: six entries.
fn with_document(rt: &impl Abort, alloc: Global) -> Result<Opened, Fail> {
    let document = Tumbler::from_places(alloc, &DOCUMENT)?;
    let mut disk = MemoryDisk::new(alloc, List::new(alloc));
    let store = Store::open(alloc, &mut disk, Limits::new(100, 1_000, 10)?)?;
    let mut opened = Opened { disk, store };
    assert_eq!(rt; opened.store.history().len(), 1);
    assert_eq!(rt; opened.begins(rt, alloc), 1);
    assert_eq!(rt; opened.begins(rt, alloc), 2);
    opened.chooses(rt, alloc, 1, 4)?;
    opened.chooses(rt, alloc, 2, 5)?;
    let reply = opened.asks(rt, alloc, 1, Request::Create, 6);
    assert!(rt; matches!(&reply, Reply::Created(made) if *made == document));
    assert_eq!(rt; opened.store.holder_of(&document), Some(1));
    Ok(opened)
}

/// Session 2 opens the document for writing, unless another session has it open so.
fn opens(rt: &impl Abort, alloc: Global, opened: &mut Opened, entries: u64) -> Result<Reply, Fail> {
    let request = Request::Open {
        document: Tumbler::from_places(alloc, &DOCUMENT)?,
        mode: Mode::Write,
        rule: Rule::Refuse,
    };
    Ok(opened.asks(rt, alloc, 2, request, entries))
}

#[test]
fn a_document_passes_to_another_session(rt: HostRuntime) -> Result<(), Fail> {
    let alloc = rt.alloc();
    let document = Tumbler::from_places(alloc, &DOCUMENT)?;
    let mut opened = with_document(&rt, alloc)?;
    let reply = opens(&rt, alloc, &mut opened, 6)?;
    assert!(rt; matches!(&reply, Reply::Refused(Refusal::Conflict)));
    let end = Step::End { session: 1 };
    let answer = opened.store.step(alloc, &mut opened.disk, 7, end);
    assert!(rt; matches!(&answer, StepAnswer::Ended));
    assert_eq!(rt; opened.store.holder_of(&document), None);
    let reply = opens(&rt, alloc, &mut opened, 8)?;
    assert!(rt; matches!(&reply, Reply::Opened(same) if *same == document));
    assert_eq!(rt; opened.store.holder_of(&document), Some(2));
    assert_eq!(rt; opened.into_history().len(), 8);
    Ok(())
}

#[test]
fn what_is_over_stays_over(rt: HostRuntime) -> Result<(), Fail> {
    let alloc = rt.alloc();
    let mut opened = with_document(&rt, alloc)?;
    let reply = opened.asks(&rt, alloc, 2, Request::Quit, 7);
    assert!(rt; matches!(&reply, Reply::Quit));
    let end = Step::End { session: 2 };
    let answer = opened.store.step(alloc, &mut opened.disk, 7, end);
    assert!(rt; matches!(&answer, StepAnswer::NoSession));
    let create = Step::Ask {
        session: 2,
        request: Request::Create,
    };
    let answer = opened.store.step(alloc, &mut opened.disk, 7, create);
    assert!(rt; matches!(&answer, StepAnswer::NoSession));
    assert_eq!(rt; opened.begins(&rt, alloc), 3);
    assert_eq!(rt; opened.store.history().len(), 8);
    Ok(())
}

/// Opens the store, again where the disk failed, and counts that.
fn open(
    rt: &impl Abort,
    alloc: Global,
    mut disk: MemoryDisk,
    faults: &mut u64,
) -> Result<Opened, Fail> {
    for _ in 0..2 {
        match Store::open(alloc, &mut disk, Limits::new(100, 1_000, 10)?) {
            Ok(store) => return Ok(Opened { disk, store }),
            Err(fault) => assert_eq!(rt; fault, OpenFault::Disk),
        }
        *faults = faults.saturating_add(1);
    }
    panic!(rt; "the disk failed twice")
}

/// The edit of this number: two documents, and then a text in the first.
fn edit(alloc: Global, number: u64) -> Result<Request, Fail> {
    if number < 2 {
        return Ok(Request::Create);
    }
    Ok(Request::Insert {
        document: Tumbler::from_places(alloc, &DOCUMENT)?,
        at: Tumbler::from_places(alloc, &[1, 1])?,
        text: List::from_slice(alloc, b"hi")?,
    })
}

/// Session 1 makes the edit, again where the disk failed, and counts that. There are three entries before the first edit.
fn edits(
    rt: &impl Abort,
    alloc: Global,
    opened: &mut Opened,
    number: u64,
    faults: &mut u64,
) -> Result<Reply, Fail> {
    let entries = number.saturating_add(3);
    for _ in 0..2 {
        let step = Step::Ask {
            session: 1,
            request: edit(alloc, number)?,
        };
        let StepAnswer::Reply { reply, point } = opened.store.step(alloc, &mut opened.disk, 7, step)
        else {
            panic!(rt; "the session is not live");
        };
        let Reply::Refused(refusal) = &reply else {
            assert_eq!(rt; point, entries.saturating_add(1));
            return Ok(reply);
        };
        assert_eq!(rt; *refusal, Refusal::Disk);
        assert_eq!(rt; point, entries);
        *faults = faults.saturating_add(1);
    }
    panic!(rt; "the disk failed twice")
}

/// The store that is opened from the disk has the three edits, and a restart.
fn check_kept(rt: &impl Abort, alloc: Global, disk: &mut MemoryDisk) -> Result<(), Fail> {
    let store = Store::open(alloc, disk, Limits::new(100, 1_000, 10)?)?;
    assert_eq!(rt; store.history().len(), 4);
    let Some(entry) = store.history().get(2) else {
        panic!(rt; "an edit is lost");
    };
    let inserted = &entry.change;
    assert!(rt;
        matches!(inserted, Change::Insert { text, .. } if text.as_slice() == b"hi".as_slice())
    );
    Ok(())
}

/// Makes the three edits, and counts how often the disk failed.
fn check_edits(
    rt: &impl Abort,
    alloc: Global,
    opened: &mut Opened,
    faults: &mut u64,
) -> Result<(), Fail> {
    for number in 1..3u32 {
        let document = Tumbler::from_places(alloc, &[1, 1, 0, 1, 0, number])?;
        let made = edits(rt, alloc, opened, u64::from(number - 1), faults)?;
        assert!(rt; matches!(&made, Reply::Created(made) if *made == document));
    }
    let reply = edits(rt, alloc, opened, 2, faults)?;
    assert!(rt; matches!(&reply, Reply::Inserted));
    Ok(())
}

/// An opening and three edits have four calls each. This one fails.
fn check_failing(rt: &impl Abort, alloc: Global, failing: u64) -> Result<(), Fail> {
    let disk = MemoryDisk::new(alloc, List::from_slice(alloc, &[failing])?);
    let mut faults = 0;
    let mut opened = open(rt, alloc, disk, &mut faults)?;
    assert_eq!(rt; opened.begins(rt, alloc), 1);
    opened.chooses(rt, alloc, 1, 3)?;
    check_edits(rt, alloc, &mut opened, &mut faults)?;
    assert_eq!(rt; faults, 1);
    check_kept(rt, alloc, &mut opened.disk)
}

#[test]
fn an_edit_is_made_when_it_is_asked_again(rt: HostRuntime) -> Result<(), Fail> {
    for failing in 1..17u64 {
        check_failing(&rt, rt.alloc(), failing)?;
    }
    Ok(())
}
