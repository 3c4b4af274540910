//! Readers and writers that fail or are interrupted, and a folder as a disk.

use green_io::{
    Area, Disk, DiskFailed, FolderDisk, ReadAnswer, Sink, Source, StdSink, StdSource, WriteAnswer,
    write_and_sync,
};
use std::io::ErrorKind;
use std::test::Fail;
use std::{fs, io};

// What one call of a fake does.
#[derive(Clone, Copy)]
enum Outcome {
    Moves(usize),
    Fails(ErrorKind),
}

// The first of these outcomes, which is taken away. Where there is none left, nothing moves.
fn next_outcome(outcomes: &mut &[Outcome]) -> io::Result<usize> {
    match outcomes.split_first() {
        None => Ok(0),
        Some((first, rest)) => {
            *outcomes = rest;
            match *first {
                Outcome::Moves(n) => Ok(n),
                Outcome::Fails(kind) => Err(io::Error::from(kind)),
            }
        }
    }
}

// A reader whose calls have these outcomes. Its bytes are all `a`.
#[derive(Drop)]
struct FakeReader<'a> {
    reads: &'a [Outcome],
}

impl io::Read for FakeReader<'_> {
    fn read(&mut self, buf: &mut [u8]) -> io::Result<usize> {
        let n = next_outcome(&mut self.reads)?.min(buf.len());
        buf[..n].fill(b'a');
        Ok(n)
    }
}

// A writer whose calls have these outcomes.
#[derive(Drop)]
struct FakeWriter<'a> {
    writes: &'a [Outcome],
    flushes: &'a [Outcome],
}

impl io::Write for FakeWriter<'_> {
    fn write(&mut self, buf: &[u8]) -> io::Result<usize> {
        Ok(next_outcome(&mut self.writes)?.min(buf.len()))
    }

    fn flush(&mut self) -> io::Result<()> {
        next_outcome(&mut self.flushes)?;
        Ok(())
    }
}

// The answer of one read of up to four bytes, and the count of faults after it.
fn read_once<S: Source>(source: &mut S) -> (ReadAnswer, u64) {
    let mut into = [0; 4];
    let answer = source.read(&mut into);
    (answer, source.faults())
}

// The answer of one write of four bytes, and the count of faults after it.
fn write_once<S: Sink>(sink: &mut S) -> (WriteAnswer, u64) {
    let answer = sink.write(b"abcd");
    (answer, sink.faults())
}

#[test]
fn a_reader_fails_midway(rt: HostRuntime) {
    let reads = [
        Outcome::Moves(3),
        Outcome::Fails(ErrorKind::TimedOut),
        Outcome::Moves(9),
    ];
    let mut source = StdSource::new(FakeReader { reads: &reads });
    assert_eq!(rt; read_once(&mut source), (ReadAnswer::Got(3), 0));
    assert_eq!(rt; read_once(&mut source), (ReadAnswer::Failed, 1));
    assert_eq!(rt; read_once(&mut source), (ReadAnswer::Got(4), 1));
    assert_eq!(rt; read_once(&mut source), (ReadAnswer::End, 1));
}

#[test]
fn an_interrupted_read_is_tried_again(rt: HostRuntime) {
    let interrupted = Outcome::Fails(ErrorKind::Interrupted);
    let reads = [interrupted, interrupted, Outcome::Moves(1), interrupted];
    let mut source = StdSource::new(FakeReader { reads: &reads });
    assert_eq!(rt; read_once(&mut source), (ReadAnswer::Got(1), 0));
    assert_eq!(rt; read_once(&mut source), (ReadAnswer::End, 0));
}

#[test]
fn bytes_come_from_memory(rt: HostRuntime) {
    let mut source = StdSource::new(b"xyz".as_slice());
    let mut into = [0; 4];
    assert_eq!(rt; source.read(&mut into), ReadAnswer::Got(3));
    assert_eq!(rt; into, *b"xyz\0");
}

#[test]
fn a_flush_that_fails_is_a_fault(rt: HostRuntime) {
    let interrupted = Outcome::Fails(ErrorKind::Interrupted);
    let broken = Outcome::Fails(ErrorKind::BrokenPipe);
    let writes = [Outcome::Moves(2), Outcome::Moves(2), Outcome::Moves(9)];
    let flushes = [Outcome::Moves(0), broken, interrupted];
    let mut sink = StdSink::new(FakeWriter {
        writes: &writes,
        flushes: &flushes,
    });
    assert_eq!(rt; write_once(&mut sink), (WriteAnswer::Took(2), 0));
    assert_eq!(rt; write_once(&mut sink), (WriteAnswer::Failed, 1));
    assert_eq!(rt; write_once(&mut sink), (WriteAnswer::Took(4), 1));
}

#[test]
fn a_write_that_takes_nothing_is_a_fault(rt: HostRuntime) {
    let interrupted = Outcome::Fails(ErrorKind::Interrupted);
    let broken = Outcome::Fails(ErrorKind::BrokenPipe);
    let writes = [Outcome::Moves(0), interrupted, Outcome::Moves(1), broken];
    let mut sink = StdSink::new(FakeWriter {
        writes: &writes,
        flushes: &[],
    });
    assert_eq!(rt; write_once(&mut sink), (WriteAnswer::Failed, 1));
    assert_eq!(rt; write_once(&mut sink), (WriteAnswer::Took(1), 1));
    assert_eq!(rt; write_once(&mut sink), (WriteAnswer::Failed, 2));
}

#[test]
fn bytes_reach_the_writer(rt: HostRuntime) -> Result<(), Fail> {
    let mut held: Vec<u8> = Vec::new(rt.alloc());
    let mut sink = StdSink::new(&mut held);
    assert_eq!(rt; write_once(&mut sink), (WriteAnswer::Took(4), 0));
    assert_eq!(rt; held.as_slice(), b"abcd".as_slice());
    Ok(())
}

const FOLDER: &str = "folder_disk_test";

// The answer of one read of up to eight bytes from this place on, and the bytes.
fn read_at<D: Disk>(disk: &mut D, area: Area, at: u64) -> (ReadAnswer, [u8; 8]) {
    let mut into = [b'-'; 8];
    let answer = disk.read(area, at, &mut into);
    (answer, into)
}

// Writes into the log, past its end too, and makes it no shorter.
fn write_log<D: Disk>(disk: &mut D) -> Result<u64, DiskFailed> {
    disk.write(Area::Log, 7, b"xy")?;
    disk.write(Area::Log, 1, b"B")?;
    disk.cut(Area::Log, 20)?;
    disk.sync(Area::Log)?;
    disk.length(Area::Log)
}

// Cuts the log, and writes into the journal.
fn cut_log<D: Disk>(disk: &mut D) -> Result<u64, DiskFailed> {
    disk.cut(Area::Log, 2)?;
    write_and_sync(disk, Area::Journal, 0, b"j")?;
    disk.length(Area::Log)
}

#[test]
fn the_files_of_a_folder(rt: HostRuntime) -> Result<(), Fail> {
    let _ = fs::remove_dir_all(&rt, FOLDER);
    let mut disk = FolderDisk::new(rt, FOLDER)?;
    // There is no folder, and then there is one with a file.
    assert_eq!(rt; disk.length(Area::Home), Err(DiskFailed));
    fs::create_dir(&rt, FOLDER)?;
    fs::write(&rt, "folder_disk_test/log", b"abcde")?;
    assert_eq!(rt; disk.length(Area::Log), Ok(5));
    assert_eq!(rt; write_log(&mut disk), Ok(9));
    for (at, wanted) in [
        (0, (ReadAnswer::Got(8), *b"aBcde\0\0x")),
        (8, (ReadAnswer::Got(1), *b"y-------")),
        (9, (ReadAnswer::End, *b"--------")),
    ] {
        assert_eq!(rt; read_at(&mut disk, Area::Log, at), wanted, "at {at}");
    }
    assert_eq!(rt; cut_log(&mut disk), Ok(2));
    assert_eq!(rt; disk.faults(), 1);
    fs::remove_dir_all(&rt, FOLDER)?;
    Ok(())
}

// A disk in a new folder.
fn disk_in_new(rt: HostRuntime, folder: &str) -> Result<FolderDisk, Fail> {
    let _ = fs::remove_dir_all(&rt, folder);
    fs::create_dir(&rt, folder)?;
    Ok(FolderDisk::new(rt, folder)?)
}

#[test]
fn a_folder_is_opened_again(rt: HostRuntime) -> Result<(), Fail> {
    let folder = "folder_disk_again_test";
    let mut first = disk_in_new(rt, folder)?;
    assert_eq!(rt; write_log(&mut first), Ok(9));
    assert_eq!(rt; cut_log(&mut first), Ok(2));
    drop(first);
    let mut second = FolderDisk::new(rt, folder)?;
    for (area, wanted) in [
        (Area::Log, (ReadAnswer::Got(2), *b"\0B------")),
        (Area::Home, (ReadAnswer::End, *b"--------")),
        (Area::Journal, (ReadAnswer::Got(1), *b"j-------")),
    ] {
        assert_eq!(rt; read_at(&mut second, area, 0), wanted);
    }
    assert_eq!(rt; second.faults(), 0);
    fs::remove_dir_all(&rt, folder)?;
    Ok(())
}

#[test]
fn a_folder_is_one_disk_at_a_time(rt: HostRuntime) -> Result<(), Fail> {
    let folder = "folder_disk_held_test";
    let mut first = disk_in_new(rt, folder)?;
    let mut second = FolderDisk::new(rt, folder)?;
    assert!(rt; write_log(&mut first) == Ok(9));
    // A file that the second one would make, had it gone on.
    fs::remove_file(&rt, "folder_disk_held_test/home")?;
    assert!(rt; cut_log(&mut second) == Err(DiskFailed));
    assert!(rt; !fs::exists(&rt, "folder_disk_held_test/home")?);
    assert!(rt; first.length(Area::Log) == Ok(9));
    drop(first);
    assert!(rt; cut_log(&mut second) == Ok(2));
    fs::remove_dir_all(&rt, folder)?;
    Ok(())
}
