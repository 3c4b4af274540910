//! The files of a folder as a disk.
ghost use Rattle.std.specs.Prelude.{◌≡◌, ◌≤◌, ◌<◌, None, length, IfOk, OnErr};
ghost use Rattle.green_io.specs.Disk.{DiskState, IsWithin};
ghost use Rattle.green_io.specs.Outside.{HasRisen};
ghost use Rattle.green_io.specs.Folder.{LieIn};

use crate::disk::{Area, Disk, DiskFailed};
use crate::folder_files::FolderFiles;
use crate::source::ReadAnswer;
use std::fs::File;
use std::io::{self, ErrorKind};
use std::marker::Model;
use std::os::unix::fs::FileExt;
use tumbler::Memory;

/// A disk whose areas are the files `log`, `home`, `journal` and `log2` of a folder. It tells nothing of what they hold.
///
/// The folder has to exist. Its files are opened at the first call, and those that are missing are made empty.
///
/// One program has the folder at a time. As soon as `log` is open, and before any other file is made, it is locked (by
/// `flock`, against all others), until this disk is dropped or its program ends in whatever way. Where another disk
/// has the lock, in this program or in any other, the call fails, and nothing was made, read or changed. The lock
/// is on the file and not on its name, and stops none that does not ask for it, as an editor or a copy.
///
/// A fault is a folder or a file that cannot be opened, a folder that another disk has, a file system without locks,
/// and each failed call of the system, but one that was interrupted, which is tried again. Until the files are open and
/// locked each further call tries that anew.
///
/// Contracts see where the files lie, and the number of faults.
#[derive(Drop)]
pub struct FolderDisk {
    files: FolderFiles,
    faults: u64,
}

impl Model for FolderDisk {
    ghost use Rattle.green_io.specs.Folder.{FolderView};

    ghost Value = { FolderView };

    ghost view = { λ disk. record { paths = disk.files.paths; faults = disk.faults } };
}

impl FolderDisk {
    /// A disk in this folder, with no fault so far. It makes the paths and opens nothing.
    pub fn new(rt: HostRuntime, folder: &str) -> Result<FolderDisk, Memory>
        ensures faults { IfOk result (λ disk. disk.faults ≡ 0) }
        ensures folder { IfOk result (λ disk. LieIn folder.now disk.paths) }
    {
        let files = FolderFiles::new(rt, folder)?;
        Ok(FolderDisk { files, faults: 0 })
    }
}

/// What came of calls of the system, where each error is a fault more.
fn counted<T: Drop>(faults: &mut u64, answer: io::Result<T>) -> Result<T, DiskFailed>
    ensures never_falls { faults.old ≤ faults.new }
    ensures failed { OnErr result (HasRisen faults.old faults.new) }
    ensures value { IfOk result (λ x. answer ≡ Ok x) }
{
    match answer {
        Ok(value) => Ok(value),
        Err(_) => {
            *faults = faults.saturating_add(1);
            Err(DiskFailed)
        }
    }
}

fn length_of(file: &File) -> io::Result<u64> {
    Ok(file.metadata()?.len())
}

// One read, tried again where it was interrupted. No byte is the end.
fn read_uninterrupted(file: &File, at: u64, into: &mut [u8]) -> io::Result<usize>
    ensures { IfOk result (λ n. n ≤ length into.new) }
{
    for _ in 0..u64::MAX {
        match file.read_at(into, at) {
            Ok(n) => return Ok(n),
            Err(error) => {
                if error.kind() != ErrorKind::Interrupted {
                    return Err(error);
                }
            }
        }
    }
    Err(io::Error::from(ErrorKind::Interrupted))
}

// Writes all the bytes. No bytes past the end lengthen the file as others would.
fn write_whole(file: &File, at: u64, bytes: &[u8]) -> io::Result<()> {
    if bytes.is_empty() && length_of(file)? < at {
        return file.set_len(at);
    }
    file.write_all_at(bytes, at)
}

// Cuts the file, which a greater length leaves as it is.
fn cut_down(file: &File, length: u64) -> io::Result<()> {
    if length < length_of(file)? {
        return file.set_len(length);
    }
    Ok(())
}

fn length_in(files: &mut FolderFiles, area: Area) -> io::Result<u64> {
    length_of(files.of(area)?)
}

fn read_in(files: &mut FolderFiles, area: Area, at: u64, into: &mut [u8]) -> io::Result<usize>
    ensures { IfOk result (λ n. n ≤ length into.new) }
{
    read_uninterrupted(files.of(area)?, at, into)
}

fn write_in(files: &mut FolderFiles, area: Area, at: u64, bytes: &[u8]) -> io::Result<()> {
    write_whole(files.of(area)?, at, bytes)
}

fn cut_in(files: &mut FolderFiles, area: Area, length: u64) -> io::Result<()> {
    cut_down(files.of(area)?, length)
}

// Of what the system keeps beside the bytes, the length is made stable with them, and the times are not.
fn sync_in(files: &mut FolderFiles, area: Area) -> io::Result<()> {
    files.of(area)?.sync_data()
}

impl Disk for FolderDisk {
    ghost state = { λ _. record { reads = None; clock = 0; images = λ _ _. Unit {0} } };

    ghost fault_count = { λ disk. disk.faults };

    ghost is_disk = { λ _. record { sooner = λ t u image le is. tt; as_it_reads = tt } };

    fn faults(&self) -> u64 {
        self.faults
    }

    fn length(&mut self, area: Area) -> Result<u64, DiskFailed> {
        let answer = length_in(&mut self.files, area);
        counted(&mut self.faults, answer)
    }

    fn read(&mut self, area: Area, at: u64, into: &mut [u8]) -> ReadAnswer {
        let answer = read_in(&mut self.files, area, at, into);
        match counted(&mut self.faults, answer) {
            Ok(0) => ReadAnswer::End,
            Ok(n) => ReadAnswer::Got(n),
            Err(DiskFailed) => ReadAnswer::Failed,
        }
    }

    fn write(&mut self, area: Area, at: u64, bytes: &[u8]) -> Result<(), DiskFailed> {
        let answer = write_in(&mut self.files, area, at, bytes);
        counted(&mut self.faults, answer)
    }

    fn cut(&mut self, area: Area, length: u64) -> Result<(), DiskFailed> {
        let answer = cut_in(&mut self.files, area, length);
        counted(&mut self.faults, answer)
    }

    fn sync(&mut self, area: Area) -> Result<(), DiskFailed> {
        let answer = sync_in(&mut self.files, area);
        counted(&mut self.faults, answer)
    }
}
