//! Runs over a source, a sink and a disk that lie in memory, and what a later run finds on the disk.

use crate::exchanges::bytes_of;
use febe_data::{List, Memory, Text};
use green_fakes::{MemoryClock, MemoryDisk, MemorySink, MemorySource};
use green_top::{Report, run_batch};
use std::alloc::{AllocError, Global};
use std::process::Abort;
use std::test::Fail;

pub(crate) const WORDS: &[&str] = &["green_batch", "."];

/// The words of a run that writes pages behind each kept entry.
pub(crate) const EAGER: &[&str] = &["green_batch", ".", "--limits", "1000", "1000000", "1"];

/// A session that finds what the session [`HELLO`](crate::exchanges::HELLO) has left.
pub(crate) const LATER: &str = "P0~ 34~0.1.1.0.1~ 35~A~1~1~ 5~1~A~1~0.1.1~1.5~";

/// What it is told where so many of the two edits are there.
pub(crate) const LATER_TOLD: [&str; 3] = [
    "P0~ 34~ ?2~ ?2~",
    "P0~ 34~ 35~A~ 5~0~",
    "P0~ 34~ 35~A~ 5~1~t5:hello",
];

/// A run that has ended.
pub(crate) struct Ran {
    pub(crate) status: u8,
    pub(crate) source: MemorySource,
    pub(crate) sink: MemorySink,
    pub(crate) disk: MemoryDisk,
    pub(crate) report: Report,
}

/// By hand, so that a caller's exits do not look into the fields.
impl Drop for Ran {
    fn drop(self) {
        let Ran {
            status: _,
            source: _,
            sink: _,
            disk: _,
            report: _,
        } = self;
    }
}

impl Ran {
    /// The bytes that were written.
    pub(crate) fn written(&self) -> &[u8] {
        self.sink.bytes()
    }

    pub(crate) fn points(&self) -> &[u64] {
        self.report.points.as_slice()
    }

    /// How many entries the history has.
    pub(crate) fn entries(&self) -> usize {
        self.report.history.len()
    }

    /// The disk, for another run.
    pub(crate) fn into_disk(self) -> MemoryDisk {
        let Ran {
            status: _,
            source: _,
            sink: _,
            disk,
            report: _,
        } = self;
        disk
    }
}

fn strings_of(alloc: Global, words: &[&str]) -> Result<Vec<String>, AllocError> {
    let mut strings = Vec::new(alloc);
    for word in words {
        strings.push(String::from_str(alloc, word)?)?;
    }
    Ok(strings)
}

/// A run's source and its sink.
pub(crate) struct Streams {
    source: MemorySource,
    sink: MemorySink,
}

/// By hand, so that a caller's exits do not look into the fields.
impl Drop for Streams {
    fn drop(self) {
        let Streams { source: _, sink: _ } = self;
    }
}

/// So many pieces of one length.
fn pieces_of(alloc: Global, count: usize, piece: u32) -> Result<List<u32>, Memory> {
    let mut pieces = List::new(alloc);
    for _ in 0..count {
        pieces.push(piece)?;
    }
    Ok(pieces)
}

impl Streams {
    /// A source that gives these bytes at once, and a sink.
    pub(crate) fn new(alloc: Global, bytes: Text) -> Streams {
        Streams {
            source: MemorySource::new(bytes, List::new(alloc), List::new(alloc)),
            sink: MemorySink::new(alloc, List::new(alloc)),
        }
    }

    /// A source whose reads give at most `piece` bytes, and of which one fails.
    pub(crate) fn reading(
        alloc: Global,
        bytes: Text,
        piece: u32,
        failing: u64,
    ) -> Result<Streams, Memory> {
        let pieces = pieces_of(alloc, bytes.len(), piece)?;
        let failing = List::from_slice(alloc, &[failing])?;
        Ok(Streams {
            source: MemorySource::new(bytes, pieces, failing),
            sink: MemorySink::new(alloc, List::new(alloc)),
        })
    }

    /// A sink of which one write fails.
    pub(crate) fn writing(alloc: Global, bytes: Text, failing: u64) -> Result<Streams, Memory> {
        let failing = List::from_slice(alloc, &[failing])?;
        Ok(Streams {
            source: MemorySource::new(bytes, List::new(alloc), List::new(alloc)),
            sink: MemorySink::new(alloc, failing),
        })
    }
}

/// A disk of which these calls fail.
pub(crate) fn disk_failing(alloc: Global, failing: &[u64]) -> Result<MemoryDisk, Memory> {
    Ok(MemoryDisk::new(alloc, List::from_slice(alloc, failing)?))
}

impl Streams {
    /// Runs the program with these words.
    fn run(self, alloc: Global, words: &[String], mut disk: MemoryDisk) -> Ran {
        let Streams {
            mut source,
            mut sink,
        } = self;
        let mut report = Report::new(alloc);
        let status = run_batch(
            alloc,
            words,
            &mut MemoryClock::new(1000, 1),
            &mut source,
            &mut sink,
            &mut disk,
            &mut report,
        );
        Ran {
            status,
            source,
            sink,
            disk,
            report,
        }
    }
}

/// Runs the program with these words over a disk.
pub(crate) fn run(
    alloc: Global,
    words: &[&str],
    streams: Streams,
    disk: MemoryDisk,
) -> Result<Ran, AllocError> {
    let strings = strings_of(alloc, words)?;
    Ok(streams.run(alloc, strings.as_slice(), disk))
}

/// Runs a session that is given at once, over a disk.
pub(crate) fn run_row(
    alloc: Global,
    words: &[&str],
    row: &str,
    disk: MemoryDisk,
) -> Result<Ran, Fail> {
    let streams = Streams::new(alloc, bytes_of(alloc, row)?);
    Ok(run(alloc, words, streams, disk)?)
}

/// A later run over the disk finds so many edits.
pub(crate) fn check_later(
    rt: &impl Abort,
    alloc: Global,
    words: &[&str],
    disk: MemoryDisk,
    kept: usize,
    at: u64,
) -> Result<(), Fail> {
    let ran = run_row(alloc, words, LATER, disk)?;
    let told = LATER_TOLD.get(kept).ok_or("too many edits")?;
    assert!(rt; ran.status == 0, "later, at {at}");
    assert!(rt;
        ran.written() == bytes_of(alloc, told)?.as_slice(),
        "later, at {at}"
    );
    assert!(rt;
        ran.report.opened == (kept as u64).saturating_add(1),
        "later, at {at}"
    );
    Ok(())
}
