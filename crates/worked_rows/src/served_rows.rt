//! Sessions that share one lock: what each is answered while others have changed the history.
ghost use Rattle.std.specs.Prelude.{◌≡◌};
ghost use Rattle.history_lock.specs.Passes.{known, IsPassOf};

use crate::runs::{sink_of, source_of};
use crate::sessions::{bytes_of, request_of};
use febe_data::{Limits, List};
use febe_reply::write_reply;
use green_fakes::{MemoryClock, MemoryDisk, MemorySink};
use green_store::{HouseJob, Housed, StepAnswer, Store, Timed};
use green_top::{Round, SessionEnd, background_round, serve_session};
use history_lock::{HistoryLock, Pass};
use std::alloc::Global;
use std::sync::Wait;
use std::test::Fail;
use tumbler::Text;

/// A store over a disk in memory.
type House = Housed<MemoryDisk>;

/// A store over an empty disk, with the limits of a back end that names none.
fn house(alloc: Global) -> Result<House, Fail> {
    let limits = Limits::new(4_194_304, 1_073_741_824, 256)?;
    let mut disk = MemoryDisk::new(alloc, List::new(alloc));
    let store = Store::open(alloc, &mut disk, limits)?;
    Ok(Housed::new(store, disk))
}

/// The job, at some moment.
fn at_moment(job: HouseJob) -> Timed {
    Timed { moment: 7, job }
}

/// Begins a session. Gives its number, or 0.
fn begin<R: Wait>(rt: &R, alloc: Global, lock: &HistoryLock<House>, pass: &mut Pass<House>) -> u64
    requires { IsPassOf lock.now pass.old }
    ensures { IsPassOf lock.now pass.new }
{
    let answer = lock.act(rt, alloc, pass, at_moment(HouseJob::Begin)).answer;
    match answer {
        StepAnswer::Begun { session } => session,
        _ => 0,
    }
}

/// A reply's bytes and its point; no bytes where the session is not live.
struct Told {
    bytes: Text,
    point: u64,
}

/// By hand, so that a caller's exits do not look into the fields.
impl Drop for Told {
    fn drop(self) {
        let Told { bytes: _, point: _ } = self;
    }
}

impl Told {
    fn is(&self, alloc: Global, row: &str, point: u64) -> Result<bool, Fail> {
        let wanted = bytes_of(alloc, row)?;
        Ok(self.bytes.as_slice() == wanted.as_slice() && self.point == point)
    }
}

/// Makes the row's request for the pass's session.
fn ask<R: Wait>(
    rt: &R,
    alloc: Global,
    lock: &HistoryLock<House>,
    pass: &mut Pass<House>,
    row: &str,
) -> Result<Told, Fail>
    requires { IsPassOf lock.now pass.old }
    ensures { IsPassOf lock.now pass.new }
{
    let bytes = bytes_of(alloc, row)?;
    let Some(request) = request_of(alloc, bytes.as_slice())? else {
        return Ok(Told {
            bytes: Text::new(alloc),
            point: 0,
        });
    };
    let answer = lock
        .act(rt, alloc, pass, at_moment(HouseJob::Ask(request)))
        .answer;
    let StepAnswer::Reply { reply, point } = answer else {
        return Ok(Told {
            bytes: Text::new(alloc),
            point: 0,
        });
    };
    Ok(Told {
        bytes: write_reply(alloc, &reply)?,
        point,
    })
}

/// Begins a session that makes a document and inserts the text, and leaves it live.
fn write_document<R: Wait>(
    rt: &R,
    alloc: Global,
    lock: &HistoryLock<House>,
    pass: &mut Pass<House>,
    insert: &str,
) -> Result<(), Fail>
    requires { IsPassOf lock.now pass.old }
    ensures { IsPassOf lock.now pass.new }
{
    begin(rt, alloc, lock, pass);
    ask(rt, alloc, lock, pass, "34~0.1.1.0.1~")?;
    ask(rt, alloc, lock, pass, "11~")?;
    ask(rt, alloc, lock, pass, insert)?;
    Ok(())
}

#[test]
fn a_pass_sees_what_another_did(rt: HostRuntime) -> Result<(), Fail> {
    let alloc = rt.alloc();
    let Ok((lock, mut first)) = HistoryLock::new(alloc, house(alloc)?) else {
        panic!(rt; "there is memory for a lock")
    };
    let mut second = lock.new_pass(&mut first);
    write_document(&rt, alloc, &lock, &mut first, "0~A~0.1.1~t1:x")?;
    ask(&rt, alloc, &lock, &mut first, "40~A~")?;
    assert!(rt; lock.front(&mut second) == 6);
    begin(&rt, alloc, &lock, &mut second);
    ask(&rt, alloc, &lock, &mut second, "35~A~1~1~")?;
    let told = ask(&rt, alloc, &lock, &mut second, "5~1~A~1~0.1.1~1.1~")?;
    assert!(rt; told.is(alloc, "5~1~t1:x", 8)?);
    lock.end_pass(&mut first, second);
    drop(lock);
    drop(first);
    Ok(())
}

/// A session that was served: how it ended, what it wrote, and its points.
struct Served {
    end: SessionEnd,
    sink: MemorySink,
    points: List<u64>,
}

/// By hand, so that a caller's exits do not look into the fields.
impl Drop for Served {
    fn drop(self) {
        let Served {
            end: _,
            sink: _,
            points: _,
        } = self;
    }
}

impl Served {
    fn has_written(&self, alloc: Global, row: &str) -> Result<bool, Fail> {
        let wanted = bytes_of(alloc, row)?;
        Ok(self.sink.bytes() == wanted.as_slice())
    }
}

/// Serves a session that sends the row, in pieces of three bytes, by a new pass. Reads and writes fail where their numbers are listed.
fn serve<R: Wait>(
    rt: &R,
    alloc: Global,
    lock: &HistoryLock<House>,
    from: &mut Pass<House>,
    row: &str,
    reads: &[u64],
    writes: &[u64],
) -> Result<Served, Fail>
    requires { IsPassOf lock.now from.old }
    ensures { IsPassOf lock.now from.new }
{
    let mut source = source_of(alloc, bytes_of(alloc, row)?, Some(3), reads)?;
    let mut sink = sink_of(alloc, writes)?;
    let mut points = List::new(alloc);
    let mut pass = lock.new_pass(from);
    let end = serve_session(
        rt,
        alloc,
        lock,
        &mut pass,
        &mut MemoryClock::new(1000, 1),
        &mut source,
        &mut sink,
        &mut points,
    );
    lock.end_pass(from, pass);
    Ok(Served { end, sink, points })
}

#[test]
fn a_session_is_served_beside_another(rt: HostRuntime) -> Result<(), Fail> {
    let alloc = rt.alloc();
    let Ok((lock, mut first)) = HistoryLock::new(alloc, house(alloc)?) else {
        panic!(rt; "there is memory for a lock")
    };
    write_document(&rt, alloc, &lock, &mut first, "0~A~0.1.1~t5:hello")?;
    let row = "P0~ 34~0.1.1.0.1~ 35~A~2~1~ 35~A~1~1~ 5~1~A~1~0.1.1~1.5~ 16~";
    let served = serve(&rt, alloc, &lock, &mut first, row, &[], &[])?;
    assert!(rt; served.end == SessionEnd::Quit);
    assert!(rt; served.has_written(alloc, "P0~ 34~ ?6~ 35~A~ 5~1~t5:hello 16~")?);
    assert!(rt; served.points.as_slice() == [7, 7, 8, 8, 9].as_slice());
    let told = ask(&rt, alloc, &lock, &mut first, "0~A~0.1.6~t1:!")?;
    assert!(rt; told.is(alloc, "0~", 10)?);
    drop(lock);
    drop(first);
    Ok(())
}

#[test]
fn a_fault_ends_one_session(rt: HostRuntime) -> Result<(), Fail> {
    let alloc = rt.alloc();
    let Ok((lock, mut first)) = HistoryLock::new(alloc, house(alloc)?) else {
        panic!(rt; "there is memory for a lock")
    };
    let served = serve(&rt, alloc, &lock, &mut first, "P0~34~0.1.1.0.1~", &[2], &[])?;
    assert!(rt; served.end == SessionEnd::ReadFault);
    assert!(rt; served.has_written(alloc, "P0~")?);
    // A restart, a begin and an end.
    assert!(rt; lock.front(&mut first) == 3);
    let served = serve(&rt, alloc, &lock, &mut first, "P0~34~0.1.1.0.1~", &[], &[1])?;
    assert!(rt; served.end == SessionEnd::WriteFault);
    assert!(rt; served.has_written(alloc, "")?);
    assert!(rt; lock.front(&mut first) == 5);
    drop(lock);
    drop(first);
    Ok(())
}

/// Inserts a byte in front of document A so many times. Its bytes lie in one order and stand in the other, so each is a piece
/// of its own.
fn type_in_front<R: Wait>(
    rt: &R,
    alloc: Global,
    lock: &HistoryLock<House>,
    pass: &mut Pass<House>,
    times: u64,
) -> Result<(), Fail>
    requires { IsPassOf lock.now pass.old }
    ensures { IsPassOf lock.now pass.new }
{
    for _ in 0..times {
        ask(rt, alloc, lock, pass, "0~A~0.1.1~t1:y")?;
    }
    Ok(())
}

/// Makes background rounds, at most a hundred, until nothing is to be put right. Says whether that came.
fn settles<R: Wait>(
    rt: &R,
    alloc: Global,
    lock: &HistoryLock<House>,
    pass: &mut Pass<House>,
) -> bool
    requires { IsPassOf lock.now pass.old }
    ensures { IsPassOf lock.now pass.new }
{
    for _ in 0..100u64 {
        if background_round(rt, alloc, lock, pass, &mut MemoryClock::new(1000, 1)) == Round::Idle {
            return true;
        }
    }
    false
}

#[test]
fn rounds_put_trees_right(rt: HostRuntime) -> Result<(), Fail> {
    let alloc = rt.alloc();
    let Ok((lock, mut first)) = HistoryLock::new(alloc, house(alloc)?) else {
        panic!(rt; "there is memory for a lock")
    };
    write_document(&rt, alloc, &lock, &mut first, "0~A~0.1.1~t1:x")?;
    type_in_front(&rt, alloc, &lock, &mut first, 20)?;
    // Twenty-one pieces are more than a node may have.
    assert!(rt;
        background_round(
            &rt,
            alloc,
            &lock,
            &mut first,
            &mut MemoryClock::new(1000, 1)
        ) == Round::Balanced
    );
    assert!(rt; settles(&rt, alloc, &lock, &mut first));
    let told = ask(&rt, alloc, &lock, &mut first, "5~1~A~1~0.1.1~1.21~")?;
    // A restart, a begin and 23 requests: rounds add nothing to the history.
    assert!(rt; told.is(alloc, "5~1~t21:yyyyyyyyyyyyyyyyyyyyx", 25)?);
    drop(lock);
    drop(first);
    Ok(())
}
