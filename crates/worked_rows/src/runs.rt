//! Runs over a source and a sink that lie in memory.
//!
//! Spaces part the requests of a row and its replies, and are no bytes of them. The letter `A` stands for the first
//! document of the first account, `0.1.1.0.1.0.1`.

use crate::sessions::bytes_of;
use febe_data::{Change, List};
use green_fakes::{MemoryClock, MemoryDisk, MemorySink, MemorySource};
use green_top::{Report, run_batch};
use std::alloc::{AllocError, Global};
use std::process::Abort;
use std::test::Fail;
use tumbler::{Memory, Text};

pub(crate) const WORDS: &[&str] = &["green_batch", "."];

pub(crate) const HELLO: &str = "P0~ 34~0.1.1.0.1~ 11~ 0~0.1.1.0.1.0.1~0.1.1~t5:hello \
    5~1~0.1.1.0.1.0.1~1~0.1.1~1.5~ 16~";

pub(crate) const HELLO_ANSWERED: &str = "P0~ 34~ 11~0.1.1.0.1.0.1~ 0~ 5~1~t5:hello 16~";

/// What an entry changed, with no addresses and no text.
#[derive(Clone, Copy, Debug, PartialEq, Eq)]
pub(crate) enum Kind {
    Restart,
    Begin,
    End,
    Account,
    Open,
    Close,
    Create,
    Version,
    OpenCopy,
    Insert,
    Delete,
    Rearrange,
    Copy,
    Link,
    Publish,
}

/// A kind, a session and a serial.
pub(crate) type Mark = (Kind, u64, u64);

pub(crate) const RESTART: Mark = (Kind::Restart, 0, 0);

pub(crate) const BEGIN: Mark = (Kind::Begin, 1, 1);

fn kind_of(change: &Change) -> Kind {
    match change {
        Change::Restart => Kind::Restart,
        Change::Begin => Kind::Begin,
        Change::End => Kind::End,
        Change::Account { .. } => Kind::Account,
        Change::Open { .. } => Kind::Open,
        Change::Close { .. } => Kind::Close,
        Change::Create { .. } => Kind::Create,
        Change::Version { .. } => Kind::Version,
        Change::OpenCopy { .. } => Kind::OpenCopy,
        Change::Insert { .. } => Kind::Insert,
        Change::Delete { .. } => Kind::Delete,
        Change::Rearrange { .. } => Kind::Rearrange,
        Change::Copy { .. } => Kind::Copy,
        Change::Link { .. } => Kind::Link,
        Change::Publish { .. } => Kind::Publish,
    }
}

/// A run that has ended.
pub(crate) struct Ran {
    pub(crate) status: u8,
    pub(crate) source: MemorySource,
    pub(crate) sink: MemorySink,
    pub(crate) disk: MemoryDisk,
    pub(crate) report: Report,
}

/// By hand, so that a caller's exits do not look into the fields.
impl Drop for Ran {
    fn drop(self) {
        let Ran {
            status: _,
            source: _,
            sink: _,
            disk: _,
            report: _,
        } = self;
    }
}

/// The numbers that a run tells.
#[derive(Clone, Copy, Debug, PartialEq, Eq)]
pub(crate) struct Figures {
    pub(crate) status: u8,
    pub(crate) opened: u64,
    pub(crate) bytes_read: u64,
    pub(crate) place: u64,
}

impl Ran {
    /// The bytes that were written.
    pub(crate) fn written(&self) -> &[u8] {
        self.sink.bytes()
    }

    pub(crate) fn figures(&self) -> Figures {
        Figures {
            status: self.status,
            opened: self.report.opened,
            bytes_read: self.report.bytes_read,
            place: self.report.place,
        }
    }

    pub(crate) fn points(&self) -> &[u64] {
        self.report.points.as_slice()
    }

    /// The history, entry by entry.
    pub(crate) fn marks(&self, alloc: Global) -> Result<Vec<Mark>, AllocError> {
        let mut marks = Vec::new(alloc);
        for entry in self.report.history.as_slice() {
            marks.push((kind_of(&entry.change), entry.session, entry.serial))?;
        }
        Ok(marks)
    }
}

pub(crate) fn strings_of(alloc: Global, words: &[&str]) -> Result<Vec<String>, AllocError> {
    let mut strings = Vec::new(alloc);
    for word in words {
        strings.push(String::from_str(alloc, word)?)?;
    }
    Ok(strings)
}

fn run_strings(
    alloc: Global,
    words: &[String],
    mut clock: MemoryClock,
    mut source: MemorySource,
    mut sink: MemorySink,
    mut disk: MemoryDisk,
) -> Ran {
    let mut report = Report::new(alloc);
    let status = run_batch(
        alloc,
        words,
        &mut clock,
        &mut source,
        &mut sink,
        &mut disk,
        &mut report,
    );
    Ran {
        status,
        source,
        sink,
        disk,
        report,
    }
}

/// Runs the program with these words over a disk, by this clock.
pub(crate) fn run_at(
    alloc: Global,
    words: &[&str],
    clock: MemoryClock,
    source: MemorySource,
    sink: MemorySink,
    disk: MemoryDisk,
) -> Result<Ran, AllocError> {
    let strings = strings_of(alloc, words)?;
    Ok(run_strings(alloc, strings.as_slice(), clock, source, sink, disk))
}

/// Runs the program with these words over a disk. Its steps have the moments 1000, 1001, ..
pub(crate) fn run_over(
    alloc: Global,
    words: &[&str],
    source: MemorySource,
    sink: MemorySink,
    disk: MemoryDisk,
) -> Result<Ran, AllocError> {
    run_at(alloc, words, MemoryClock::new(1000, 1), source, sink, disk)
}

/// Runs the program with these words over an empty disk.
pub(crate) fn run(
    alloc: Global,
    words: &[&str],
    source: MemorySource,
    sink: MemorySink,
) -> Result<Ran, AllocError> {
    let disk = MemoryDisk::new(alloc, List::new(alloc));
    run_over(alloc, words, source, sink, disk)
}

/// So many pieces of one length.
fn pieces_of(alloc: Global, count: usize, piece: u32) -> Result<List<u32>, Memory> {
    let mut pieces = List::new(alloc);
    for _ in 0..count {
        pieces.push(piece)?;
    }
    Ok(pieces)
}

/// A source of these bytes. A read gives at most `piece` of them, or all where there is none, and fails where its
/// number is listed.
pub(crate) fn source_of(
    alloc: Global,
    bytes: Text,
    piece: Option<u32>,
    failing: &[u64],
) -> Result<MemorySource, Memory> {
    let pieces = match piece {
        Some(piece) => pieces_of(alloc, bytes.len(), piece)?,
        None => List::new(alloc),
    };
    Ok(MemorySource::new(bytes, pieces, List::from_slice(alloc, failing)?))
}

/// A sink of which a write fails where its number is listed.
pub(crate) fn sink_of(alloc: Global, failing: &[u64]) -> Result<MemorySink, Memory> {
    Ok(MemorySink::new(alloc, List::from_slice(alloc, failing)?))
}

/// Runs the program with these words on these bytes, of which a read gives at most `piece`.
pub(crate) fn run_words(
    alloc: Global,
    words: &[&str],
    bytes: Text,
    piece: Option<u32>,
) -> Result<Ran, Fail> {
    let source = source_of(alloc, bytes, piece, &[])?;
    let sink = sink_of(alloc, &[])?;
    Ok(run(alloc, words, source, sink)?)
}

/// Runs these bytes, of which a read gives at most `piece`.
pub(crate) fn run_bytes(alloc: Global, bytes: Text, piece: Option<u32>) -> Result<Ran, Fail> {
    run_words(alloc, WORDS, bytes, piece)
}

/// Bytes of a session beside what they are answered, how the run ends, and the place that this names.
#[derive(Clone, Copy)]
pub(crate) struct Session {
    pub(crate) input: &'static str,
    pub(crate) output: &'static str,
    pub(crate) status: u8,
    pub(crate) place: u64,
}

fn check_ran(rt: &impl Abort, session: &Session, ran: &Ran, wanted: &[u8]) {
    let input = session.input;
    assert_eq!(rt; ran.written(), wanted, "at {input}");
    assert_eq!(rt; ran.status, session.status, "at {input}");
    assert_eq!(rt; ran.report.place, session.place, "at {input}");
}

fn check_piece(
    rt: &impl Abort,
    alloc: Global,
    session: &Session,
    piece: Option<u32>,
) -> Result<(), Fail> {
    let wanted = bytes_of(alloc, session.output)?;
    let ran = run_bytes(alloc, bytes_of(alloc, session.input)?, piece)?;
    check_ran(rt, session, &ran, wanted.as_slice());
    Ok(())
}

/// Runs the session on a source that gives all at once and on one that gives a byte at a time.
pub(crate) fn check_session(rt: &impl Abort, alloc: Global, session: &Session) -> Result<(), Fail> {
    check_piece(rt, alloc, session, None)?;
    check_piece(rt, alloc, session, Some(1))
}
