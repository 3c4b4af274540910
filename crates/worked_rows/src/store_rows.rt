//! Steps of one store beside what they are answered.

use crate::sessions::{bytes_of, request_of};
use crate::tables::{PRIVATE, Row, Step as Line, TWO_WRITERS};
use febe_data::{Limits, List, Memory, Request};
use febe_reply::write_reply;
use green_fakes::MemoryDisk;
use green_store::{Step, StepAnswer, Store};
use std::alloc::Global;
use std::process::Abort;
use std::test::Fail;
use tumbler::Text;

/// The moment of each step.
const MOMENT: u64 = 7;

/// A store and its disk.
pub(crate) struct House {
    pub(crate) store: Store,
    pub(crate) disk: MemoryDisk,
}

/// By hand, so that a caller's exits do not look into the fields.
impl Drop for House {
    fn drop(self) {
        let House { store: _, disk: _ } = self;
    }
}

/// A store over this disk, which writes pages behind so many kept entries.
pub(crate) fn house_over(alloc: Global, disk: MemoryDisk, flush: u32) -> Result<House, Fail> {
    let limits = Limits::new(4_194_304, 1_073_741_824, flush)?;
    let mut disk = disk;
    let store = Store::open(alloc, &mut disk, limits)?;
    Ok(House { store, disk })
}

/// A store over an empty disk, with the limits of a back end that names none.
pub(crate) fn fresh(alloc: Global) -> Result<House, Fail> {
    house_over(alloc, MemoryDisk::new(alloc, List::new(alloc)), 256)
}

/// A store over what a crash of this pick leaves of the other's disk. It writes pages behind each kept entry.
pub(crate) fn reopened(alloc: Global, house: &House, pick: u64) -> Result<House, Fail> {
    house_over(alloc, house.disk.crash(u64::MAX, pick)?, 1)
}

/// Begins a session, and gives its number.
pub(crate) fn begin(alloc: Global, house: &mut House) -> Option<u64> {
    match house
        .store
        .step(alloc, &mut house.disk, MOMENT, Step::Begin)
    {
        StepAnswer::Begun { session } => Some(session),
        _ => None,
    }
}

/// The bytes of the reply to a session's request; no bytes where the session is not live.
pub(crate) fn ask(
    alloc: Global,
    house: &mut House,
    session: u64,
    request: Request,
) -> Result<Text, Memory> {
    let step = Step::Ask { session, request };
    let StepAnswer::Reply { reply, .. } = house.store.step(alloc, &mut house.disk, MOMENT, step)
    else {
        return Ok(Text::new(alloc));
    };
    write_reply(alloc, &reply)
}

/// Makes a background step, and tells whether it has written pages for all kept entries.
pub(crate) fn flushes(alloc: Global, house: &mut House) -> bool {
    let answer = house
        .store
        .step(alloc, &mut house.disk, MOMENT, Step::Background);
    matches!(&answer, StepAnswer::Flushed)
}

/// Makes a background step, and tells whether the disk failed while pages were written.
pub(crate) fn stops(alloc: Global, house: &mut House) -> bool {
    let answer = house
        .store
        .step(alloc, &mut house.disk, MOMENT, Step::Background);
    matches!(&answer, StepAnswer::Disk)
}

/// Makes a background step, and tells whether nodes that no tree reaches were let go.
pub(crate) fn sweeps(alloc: Global, house: &mut House) -> bool {
    let answer = house
        .store
        .step(alloc, &mut house.disk, MOMENT, Step::Background);
    matches!(&answer, StepAnswer::Swept)
}

/// Makes background steps until none applies. Gives whether no tree allows a step then.
pub(crate) fn settles(alloc: Global, house: &mut House) -> bool {
    for _ in 0..100_000u32 {
        if let StepAnswer::Idle = house
            .store
            .step(alloc, &mut house.disk, MOMENT, Step::Background)
        {
            return !house.store.can_balance();
        }
    }
    false
}

/// Whether a live session has ended.
fn end(alloc: Global, house: &mut House, session: u64) -> bool {
    match house
        .store
        .step(alloc, &mut house.disk, MOMENT, Step::End { session })
    {
        StepAnswer::Ended => true,
        _ => false,
    }
}

/// Makes one request, and compares its reply; where none is wanted the session is not live.
pub(crate) fn check_request(
    rt: &impl Abort,
    alloc: Global,
    house: &mut House,
    session: u64,
    request: &str,
    wanted: &str,
) -> Result<(), Fail> {
    let bytes = bytes_of(alloc, request)?;
    let asked = request_of(alloc, bytes.as_slice())?.ok_or("no request")?;
    let told = ask(alloc, house, session, asked)?;
    assert_eq!(rt;
        told.as_slice(),
        bytes_of(alloc, wanted)?.as_slice(),
        "at {session} {request}"
    );
    Ok(())
}

/// A request and its reply.
pub(crate) type Asked = (&'static str, &'static str);

/// Makes these requests for the session, one after the other, and compares their replies.
pub(crate) fn asks_all(
    rt: &impl Abort,
    alloc: Global,
    house: &mut House,
    session: u64,
    asked: &[Asked],
) -> Result<(), Fail> {
    for (request, wanted) in asked {
        check_request(rt, alloc, house, session, request, wanted)?;
    }
    Ok(())
}

/// Makes the line's requests, one after the other.
fn check_line(rt: &impl Abort, alloc: Global, house: &mut House, line: &Line) -> Result<(), Fail> {
    let (session, requests, replies) = *line;
    let mut wanted = replies.split(' ');
    for request in requests.split(' ') {
        let reply = wanted.next().ok_or("no reply")?;
        check_request(rt, alloc, house, session, request, reply)?;
    }
    Ok(())
}

/// Makes the row's steps on a store of two sessions.
fn play(rt: &impl Abort, alloc: Global, house: &mut House, row: Row) -> Result<(), Fail> {
    assert_eq!(rt; begin(alloc, house), Some(1));
    assert_eq!(rt; begin(alloc, house), Some(2));
    for line in row {
        check_line(rt, alloc, house, line)?;
    }
    Ok(())
}

fn check_row(rt: &impl Abort, alloc: Global, row: Row) -> Result<(), Fail> {
    let mut house = fresh(alloc)?;
    play(rt, alloc, &mut house, row)
}

#[test]
fn documents_pass_between_sessions(rt: HostRuntime) -> Result<(), Fail> {
    for row in TWO_WRITERS {
        check_row(&rt, rt.alloc(), *row)?;
    }
    Ok(())
}

#[test]
fn a_store_shows_no_private_documents(rt: HostRuntime) -> Result<(), Fail> {
    for row in PRIVATE {
        check_row(&rt, rt.alloc(), *row)?;
    }
    Ok(())
}

/// A session's request and its reply; or `begin`, or `end`. The reply is empty where the session is not live.
type Turn = (u64, &'static str, &'static str);

/// Three sessions that take turns, in 63 steps: two documents that quote each other, links, versions and handing over.
const TURNS: &[Turn] = &[
    (1, "begin", ""),
    (2, "begin", ""),
    (1, "34~0.1.1.0.1~", "34~"),
    (3, "begin", ""),
    (2, "34~0.1.1.0.2~", "34~"),
    (1, "11~", "11~A~"),
    (2, "11~", "11~0.1.1.0.2.0.1~"),
    (3, "11~", "?1~"),
    (1, "0~A~0.1.1~t6:abcdef", "0~"),
    (2, "0~0.1.1.0.2.0.1~0.1.1~t3:xyz", "0~"),
    (1, "40~A~", "40~"),
    (2, "40~0.1.1.0.2.0.1~", "40~"),
    (3, "35~A~1~1~", "35~A~"),
    (2, "35~A~1~1~", "35~A~"),
    (3, "5~1~A~1~0.1.1~1.9~", "5~1~t6:abcdef"),
    (2, "2~0.1.1.0.2.0.1~0.1.4~1~A~1~0.1.2~1.3~", "2~"),
    (2, "5~1~0.1.1.0.2.0.1~1~0.1.1~1.9~", "5~1~t6:xyzbcd"),
    (3, "22~1~A~1~0.1.1~1.6~", "22~2~A~0.1.1.0.2.0.1~"),
    (1, "12~A~0.1.1~1.2~", "12~"),
    (3, "5~1~A~1~0.1.1~1.9~", "5~1~t4:cdef"),
    (
        2,
        "10~A~1~0.1.1~1.9~0.1.1.0.2.0.1~1~0.1.1~1.9~",
        "10~1~0.1.1~0.1.5~2~",
    ),
    (1, "35~0.1.1.0.2.0.1~1~1~", "35~0.1.1.0.2.0.1~"),
    (
        1,
        "27~A~1~A~1~0.1.1~1.2~1~0.1.1.0.2.0.1~1~0.1.1~1.3~0~",
        "27~0.1.1.0.1.0.1.0.2.1~",
    ),
    (3, "18~0.1.1.0.1.0.1.0.2.1~1~", "18~1~A~1~0.1.1~1.2~"),
    (
        2,
        "18~0.1.1.0.1.0.1.0.2.1~2~",
        "18~1~0.1.1.0.2.0.1~1~0.1.1~1.3~",
    ),
    (3, "18~0.1.1.0.1.0.1.0.2.1~3~", "18~0~"),
    (
        2,
        "30~0~1~0.1.1.0.2.0.1~1~0.1.4~1.3~0~0~",
        "30~1~0.1.1.0.1.0.1.0.2.1~",
    ),
    (1, "1~A~", "1~2~0.1.1~1.4~0.2.1~1.1~"),
    (3, "13~A~", "?1~"),
    (3, "34~0.1.1.0.3~", "34~"),
    (3, "13~A~", "13~0.1.1.0.3.0.1~"),
    (
        3,
        "5~1~0.1.1.0.3.0.1~1~0.1.1~0.2~",
        "5~2~t4:cdef0.1.1.0.1.0.1.0.2.1~",
    ),
    (2, "end", ""),
    (2, "5~1~0.1.1.0.2.0.1~1~0.1.1~1.9~", ""),
    (1, "35~0.1.1.0.2.0.1~2~2~", "35~0.1.1.0.1.0.2~"),
    (1, "5~1~0.1.1.0.1.0.2~1~0.1.1~1.9~", "5~1~t6:xyzbcd"),
    (1, "40~0.1.1.0.1.0.2~", "40~"),
    (3, "35~0.1.1.0.2.0.1~2~1~", "?5~"),
    (3, "34~0.1.1.0.2~", "34~"),
    (3, "35~0.1.1.0.2.0.1~2~1~", "35~0.1.1.0.2.0.1~"),
    (1, "34~0.1.1.0.2~", "34~"),
    (1, "35~0.1.1.0.2.0.1~2~1~", "?6~"),
    (1, "35~0.1.1.0.2.0.1~2~2~", "35~0.1.1.0.2.0.1.1~"),
    (3, "3~0.1.1.0.2.0.1~3~0.1.1~0.1.4~0.1.7~", "3~"),
    (1, "5~1~0.1.1.0.2.0.1~1~0.1.1~1.9~", "5~1~t6:bcdxyz"),
    (1, "5~1~0.1.1.0.2.0.1.1~1~0.1.1~1.9~", "5~1~t6:xyzbcd"),
    (1, "0~0.1.1.0.2.0.1~0.1.1~t1:!", "?4~"),
    (3, "0~0.1.1.0.2.0.1~0.1.7~t1:!", "0~"),
    (1, "14~0.1.1.0.2.0.1~", "14~0.1.1~1.7~"),
    (3, "36~A~", "36~"),
    (3, "5~1~A~1~0.1.1~1.1~", "?3~"),
    (1, "29~0~1~A~1~0.1.1~1.1~0~0~", "29~1~"),
    (1, "28~1~A~1~0.1.1~1.4~", "28~1~A~1~0.1.1~1.2~1~A~0~1~A~0~"),
    (1, "12~A~0.2.1~1.1~", "12~"),
    (1, "1~A~", "1~1~0.1.1~1.4~"),
    (3, "18~0.1.1.0.1.0.1.0.2.1~1~", "18~1~A~1~0.1.1~1.2~"),
    (3, "31~0~0~0~0~0.1~5~", "31~1~0.1.1.0.1.0.1.0.2.1~"),
    (1, "16~", "16~"),
    (1, "11~", ""),
    (3, "35~0.1.1.0.1.0.2~1~1~", "35~0.1.1.0.1.0.2~"),
    (3, "5~1~0.1.1.0.1.0.2~1~0.1.4~1.3~", "5~1~t3:bcd"),
    (3, "16~", "16~"),
    (3, "11~", ""),
];

/// Makes one turn.
fn check_turn(rt: &impl Abort, alloc: Global, house: &mut House, turn: &Turn) -> Result<(), Fail> {
    let (session, asked, wanted) = *turn;
    if asked == "begin" {
        assert_eq!(rt; begin(alloc, house), Some(session));
        return Ok(());
    }
    if asked == "end" {
        assert!(rt; end(alloc, house, session), "at {session}");
        return Ok(());
    }
    check_request(rt, alloc, house, session, asked, wanted)
}

fn check_turns(rt: &impl Abort, alloc: Global, house: &mut House) -> Result<(), Fail> {
    for turn in TURNS {
        check_turn(rt, alloc, house, turn)?;
    }
    Ok(())
}

#[test]
fn three_sessions_take_turns(rt: HostRuntime) -> Result<(), Fail> {
    let alloc = rt.alloc();
    assert_eq!(rt; TURNS.len(), 63);
    let mut house = fresh(alloc)?;
    check_turns(&rt, alloc, &mut house)?;
    assert_eq!(rt; house.store.history().len(), 34);
    Ok(())
}
