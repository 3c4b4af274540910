//! A source that fails at each of its reads, and a sink that fails at each of its writes.
//!
//! What came before the fault was answered and stands, for a later run too.

use crate::exchanges::{Exchange, HELLO, HELLO_LEFT, Side, all_of, first_of, whole_in};
use crate::runs::{Ran, Streams, WORDS, check_later, disk_failing, run};
use green_io::{Sink, Source};
use std::alloc::Global;
use std::process::Abort;
use std::test::Fail;

/// How many entries the history has once so many requests were made, the greeting among them: a restart, a begin, up to three
/// changes, and an end, which the quit makes itself.
const ENTRIES: [usize; 7] = [1, 3, 4, 5, 6, 6, 6];

/// How many of them are kept.
const KEPT: [usize; 7] = [0, 0, 0, 1, 2, 2, 2];

/// The points of all replies.
const POINTS: [u64; 5] = [3, 4, 5, 5, 6];

/// A run that made so many requests, the greeting among them, and no more.
fn check_made(
    rt: &impl Abort,
    alloc: Global,
    ran: Ran,
    made: usize,
    failing: u64,
) -> Result<(), Fail> {
    assert!(rt; ENTRIES.get(made) == Some(&ran.entries()), "at {failing}");
    assert!(rt; POINTS.as_slice().starts_with(ran.points()), "at {failing}");
    assert!(rt;
        ran.points().len() == made.saturating_sub(1),
        "at {failing}"
    );
    assert!(rt; ran.report.place == 0, "at {failing}");
    let kept = KEPT.get(made).ok_or("too many requests")?;
    check_later(rt, alloc, WORDS, ran.into_disk(), *kept, failing)
}

/// A session, how many bytes a read gives at most, and how many reads a run makes. Where no quit ends it, the last read finds
/// the end.
struct Reading {
    exchanges: &'static [Exchange],
    piece: u32,
    reads: u64,
}

/// The session has 82 bytes, and 79 without its quit.
const READINGS: &[Reading] = &[
    Reading {
        exchanges: HELLO,
        piece: 1,
        reads: 82,
    },
    Reading {
        exchanges: HELLO,
        piece: 3,
        reads: 28,
    },
    Reading {
        exchanges: HELLO,
        piece: 4096,
        reads: 1,
    },
    Reading {
        exchanges: HELLO_LEFT,
        piece: 1,
        reads: 80,
    },
    Reading {
        exchanges: HELLO_LEFT,
        piece: 3,
        reads: 28,
    },
    Reading {
        exchanges: HELLO_LEFT,
        piece: 4096,
        reads: 2,
    },
];

/// How many of so many bytes come in front of this read.
fn given_before(reading: &Reading, length: usize, read: u64) -> usize {
    let reads = read.saturating_sub(1) as usize;
    length.min(reads.saturating_mul(reading.piece as usize))
}

/// This read fails.
fn check_read(rt: &impl Abort, alloc: Global, reading: &Reading, read: u64) -> Result<(), Fail> {
    let input = all_of(alloc, reading.exchanges, Side::Requests)?;
    let given = given_before(reading, input.len(), read);
    let streams = Streams::reading(alloc, input, reading.piece, read)?;
    let ran = run(alloc, WORDS, streams, disk_failing(alloc, &[])?)?;
    let made = whole_in(alloc, reading.exchanges, Side::Requests, given)?;
    let told = first_of(alloc, reading.exchanges, Side::Replies, made)?;
    assert!(rt; ran.status == 5 && ran.source.faults() == 1, "at {read}");
    assert!(rt; ran.written() == told.as_slice(), "at {read}");
    assert!(rt; ran.report.bytes_read == given as u64, "at {read}");
    check_made(rt, alloc, ran, made, read)
}

/// The read behind the last one is never made.
fn check_last_read(rt: &impl Abort, alloc: Global, reading: &Reading) -> Result<(), Fail> {
    let input = all_of(alloc, reading.exchanges, Side::Requests)?;
    let told = all_of(alloc, reading.exchanges, Side::Replies)?;
    let behind = reading.reads.saturating_add(1);
    let streams = Streams::reading(alloc, input, reading.piece, behind)?;
    let ran = run(alloc, WORDS, streams, disk_failing(alloc, &[])?)?;
    assert!(rt; ran.status == 0 && ran.source.faults() == 0);
    assert!(rt; ran.written() == told.as_slice());
    check_made(rt, alloc, ran, reading.exchanges.len(), behind)
}

fn check_reading(rt: &impl Abort, alloc: Global, reading: &Reading) -> Result<(), Fail> {
    for before in 0..reading.reads {
        check_read(rt, alloc, reading, before.saturating_add(1))?;
    }
    check_last_read(rt, alloc, reading)
}

#[test]
fn a_source_fails_at_each_read(rt: HostRuntime) -> Result<(), Fail> {
    for reading in READINGS {
        check_reading(&rt, rt.alloc(), reading)?;
    }
    Ok(())
}

/// More writes than the session has.
const MANY: u64 = 100;

/// What was written is a first part of the replies, and not all. The request that was answered last is the one whose reply was
/// not written whole.
fn check_part(rt: &impl Abort, alloc: Global, ran: Ran, write: u64) -> Result<(), Fail> {
    let told = all_of(alloc, HELLO, Side::Replies)?;
    let length = ran.written().len();
    assert!(rt; told.as_slice().starts_with(ran.written()), "at {write}");
    assert!(rt; length < told.len(), "at {write}");
    assert!(rt; ran.status == 6, "at {write}");
    let whole = whole_in(alloc, HELLO, Side::Replies, length)?;
    check_made(rt, alloc, ran, whole.saturating_add(1), write)
}

fn check_all(rt: &impl Abort, alloc: Global, ran: Ran, write: u64) -> Result<(), Fail> {
    let told = all_of(alloc, HELLO, Side::Replies)?;
    assert!(rt; ran.written() == told.as_slice(), "at {write}");
    assert!(rt; ran.status == 0, "at {write}");
    check_made(rt, alloc, ran, HELLO.len(), write)
}

/// This write fails, if it is made. Tells whether it was.
fn check_write(rt: &impl Abort, alloc: Global, write: u64) -> Result<bool, Fail> {
    let input = all_of(alloc, HELLO, Side::Requests)?;
    let streams = Streams::writing(alloc, input, write)?;
    let ran = run(alloc, WORDS, streams, disk_failing(alloc, &[])?)?;
    if ran.sink.faults() == 0 {
        check_all(rt, alloc, ran, write)?;
        return Ok(false);
    }
    check_part(rt, alloc, ran, write)?;
    Ok(true)
}

#[test]
fn a_sink_fails_at_each_write(rt: HostRuntime) -> Result<(), Fail> {
    let mut writes: usize = 0;
    for before in 0..MANY {
        if !check_write(&rt, rt.alloc(), before.saturating_add(1))? {
            break;
        }
        writes = writes.saturating_add(1);
    }
    // Each reply is written before the next request is answered.
    assert!(rt; HELLO.len() <= writes && writes < 100);
    Ok(())
}
