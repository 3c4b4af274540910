//! The area of the log with moments, beside the others, in memory and in a folder.

use febe_data::{List, Memory};
use green_fakes::MemoryDisk;
use green_io::{Area, Disk, DiskFailed, FolderDisk, ReadAnswer};
use std::alloc::Global;
use std::fs;
use std::process::Abort;
use std::test::Fail;

const AREAS: [Area; 4] = [Area::Log, Area::Home, Area::Journal, Area::Second];

/// Writes into an area past its end and before it, makes it no shorter, and syncs it.
fn fill<D: Disk>(disk: &mut D, area: Area) -> Result<u64, DiskFailed> {
    disk.write(area, 3, b"xy")?;
    disk.write(area, 1, b"B")?;
    disk.cut(area, 9)?;
    disk.sync(area)?;
    disk.length(area)
}

/// Cuts an area, and says how long it is then.
fn shorten<D: Disk>(disk: &mut D, area: Area) -> Result<u64, DiskFailed> {
    disk.cut(area, 2)?;
    disk.sync(area)?;
    disk.length(area)
}

/// The answer of one read of up to four bytes from this place on, and the bytes.
fn read_at<D: Disk>(disk: &mut D, area: Area, at: u64) -> (ReadAnswer, [u8; 4]) {
    let mut into = [b'-'; 4];
    let answer = disk.read(area, at, &mut into);
    (answer, into)
}

/// Fills and cuts one area of a disk in memory. The others stay empty.
fn check_area(rt: &impl Abort, alloc: Global, used: Area) -> Result<(), Fail> {
    let mut disk = MemoryDisk::new(alloc, List::new(alloc));
    assert!(rt; fill(&mut disk, used) == Ok(5));
    assert!(rt; read_at(&mut disk, used, 1) == (ReadAnswer::Got(4), *b"B\0xy"));
    assert!(rt; shorten(&mut disk, used) == Ok(2));
    for area in AREAS {
        let wanted = if area == used {
            b"\0B".as_slice()
        } else {
            b"".as_slice()
        };
        assert!(rt; disk.area(area) == wanted);
    }
    Ok(())
}

#[test]
fn each_area_in_memory(rt: HostRuntime) -> Result<(), Fail> {
    for area in AREAS {
        check_area(&rt, rt.alloc(), area)?;
    }
    Ok(())
}

/// Writes into two areas, syncs the second one, and writes into it again and cuts it.
fn use_both<D: Disk>(disk: &mut D) -> Result<(), DiskFailed> {
    disk.write(Area::Log, 0, b"ab")?;
    disk.write(Area::Second, 0, b"cd")?;
    disk.sync(Area::Second)?;
    disk.write(Area::Second, 1, b"efg")?;
    disk.cut(Area::Second, 2)
}

/// What both areas of an image are.
fn check_image(
    rt: &impl Abort,
    disk: &MemoryDisk,
    moment: u64,
    pick: u64,
    log: &[u8],
    second: &[u8],
) -> Result<(), Memory> {
    let image = disk.crash(moment, pick)?;
    assert!(rt; image.area(Area::Log) == log, "at {moment} {pick}");
    assert!(rt; image.area(Area::Second) == second, "at {moment} {pick}");
    Ok(())
}

// The bytes that are drawn were computed from the generator's rule: those of the log come first.
#[test]
fn images_of_two_areas(rt: HostRuntime) -> Result<(), Fail> {
    let alloc = rt.alloc();
    let mut disk = MemoryDisk::new(alloc, List::new(alloc));
    assert!(rt; use_both(&mut disk) == Ok(()));
    for (moment, pick, log, second) in [
        (1, 0, b"ab".as_slice(), b"".as_slice()),
        (2, 0, b"ab".as_slice(), b"cd".as_slice()),
        (2, 1, b"".as_slice(), b"".as_slice()),
        (2, 3, b"\xf7".as_slice(), b"\x94i".as_slice()),
        (3, 3, b"\xf7".as_slice(), b"cd".as_slice()),
        (4, 1, b"".as_slice(), b"cd".as_slice()),
        (4, 3, b"\xf7".as_slice(), b"c\xbe\xabs".as_slice()),
        (5, 0, b"ab".as_slice(), b"ce".as_slice()),
        (5, 3, b"\xf7".as_slice(), b"c\xbe\xab".as_slice()),
        (5, 7, b"\x7f".as_slice(), b"c\xd2".as_slice()),
    ] {
        check_image(&rt, &disk, moment, pick, log, second)?;
    }
    Ok(())
}

const FOLDER: &str = "second_area_test";

#[test]
fn its_file_lies_beside_the_others(rt: HostRuntime) -> Result<(), Fail> {
    let _ = fs::remove_dir_all(&rt, FOLDER);
    fs::create_dir(&rt, FOLDER)?;
    let mut disk = FolderDisk::new(rt, FOLDER)?;
    assert!(rt; disk.length(Area::Log) == Ok(0));
    for file in [
        "second_area_test/log",
        "second_area_test/home",
        "second_area_test/journal",
        "second_area_test/log2",
    ] {
        assert!(rt; fs::read(&rt, file)?.is_empty(), "{file}");
    }
    assert!(rt; fill(&mut disk, Area::Second) == Ok(5));
    drop(disk);
    assert!(rt; fs::read(&rt, "second_area_test/log")?.is_empty());
    assert!(rt; fs::read(&rt, "second_area_test/log2")?.as_slice() == b"\0B\0xy".as_slice());
    Ok(fs::remove_dir_all(&rt, FOLDER)?)
}

#[test]
fn its_file_is_opened_again(rt: HostRuntime) -> Result<(), Fail> {
    let folder = "second_area_again_test";
    let _ = fs::remove_dir_all(&rt, folder);
    fs::create_dir(&rt, folder)?;
    fs::write(&rt, "second_area_again_test/log2", b"\0B\0xyz")?;
    let mut disk = FolderDisk::new(rt, folder)?;
    assert!(rt; read_at(&mut disk, Area::Second, 1) == (ReadAnswer::Got(4), *b"B\0xy"));
    assert!(rt; shorten(&mut disk, Area::Second) == Ok(2));
    assert!(rt; read_at(&mut disk, Area::Second, 1) == (ReadAnswer::Got(1), *b"B---"));
    assert!(rt; read_at(&mut disk, Area::Second, 2) == (ReadAnswer::End, *b"----"));
    assert!(rt; disk.faults() == 0);
    Ok(fs::remove_dir_all(&rt, folder)?)
}
