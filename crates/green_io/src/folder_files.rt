//! The files of a folder that are the areas of a disk.
ghost use Rattle.std.specs.Prelude.{◌≡◌, ◌++◌, IfOk};
ghost use Rattle.green_io.specs.Folder.{LieIn};

use crate::disk::Area;
use std::alloc::{AllocError, Global};
use std::fs::{File, OpenOptions};
use std::io::{self, ErrorKind};
use std::os::unix::fs::FileExt;

/// Where the files lie.
#[derive(Drop)]
pub struct Paths {
    pub folder: String,
    pub log: String,
    pub home: String,
    pub journal: String,
    pub second: String,
}

impl Paths {
    fn new(alloc: Global, folder: &str) -> Result<Paths, AllocError>
        ensures { IfOk result (λ paths. LieIn folder.now paths) }
    {
        Ok(Paths {
            folder: String::from_str(alloc, folder)?,
            log: joined(alloc, folder, "/log")?,
            home: joined(alloc, folder, "/home")?,
            journal: joined(alloc, folder, "/journal")?,
            second: joined(alloc, folder, "/log2")?,
        })
    }
}

fn joined(alloc: Global, folder: &str, name: &str) -> Result<String, AllocError>
    ensures { IfOk result (λ path. path.bytes.items ≡ folder.now ++ name.now) }
{
    let mut path = String::from_str(alloc, folder)?;
    path.push_str(name)?;
    Ok(path)
}

/// The open files, of which the log is locked until they are closed.
#[derive(Drop)]
struct AreaFiles {
    log: File,
    home: File,
    journal: File,
    second: File,
}

impl AreaFiles {
    /// Opens the files and makes those that are missing, which the folder then names for good.
    ///
    /// The log comes first and is locked at once: where another program holds the folder its log is there, so nothing
    /// has been made or changed when this fails.
    fn open(rt: &HostRuntime, paths: &Paths) -> io::Result<AreaFiles> {
        let log = open_or_make(rt, paths.log.as_str())?;
        log.try_lock()?;
        let files = AreaFiles {
            log,
            home: open_or_make(rt, paths.home.as_str())?,
            journal: open_or_make(rt, paths.journal.as_str())?,
            second: open_or_make(rt, paths.second.as_str())?,
        };
        File::open(rt, paths.folder.as_str())?.sync_all()?;
        Ok(files)
    }

    fn of(&self, area: Area) -> &File {
        match area {
            Area::Log => &self.log,
            Area::Home => &self.home,
            Area::Journal => &self.journal,
            Area::Second => &self.second,
        }
    }
}

fn open_or_make(rt: &HostRuntime, path: &str) -> io::Result<File> {
    OpenOptions::new()
        .read(true)
        .write(true)
        .create(true)
        .open(rt, path)
}

/// The files of a folder, opened when they are first wanted.
#[derive(Drop)]
pub(crate) struct FolderFiles {
    rt: HostRuntime,
    pub(crate) paths: Paths,
    files: Option<AreaFiles>,
}

impl FolderFiles {
    pub(crate) fn new(rt: HostRuntime, folder: &str) -> Result<FolderFiles, AllocError>
        ensures { IfOk result (λ files. LieIn folder.now files.paths) }
    {
        Ok(FolderFiles {
            rt,
            paths: Paths::new(rt.alloc(), folder)?,
            files: None,
        })
    }

    /// The file of an area. Where a file or the folder cannot be opened, or another program holds the lock, the next
    /// call tries again.
    pub(crate) fn of(&mut self, area: Area) -> io::Result<&File> {
        if self.files.is_none() {
            self.files = Some(AreaFiles::open(&self.rt, &self.paths)?);
        }
        match &self.files {
            Some(files) => Ok(files.of(area)),
            None => Err(io::Error::from(ErrorKind::NotFound)),
        }
    }
}
