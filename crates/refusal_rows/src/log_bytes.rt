//! Logs of which one byte was changed, with moments and of before.
//!
//! A changed byte ends the log earlier, or says something else that is right, or is told with the offset of the gate behind
//! which what stands is no entry, or one that does not fit. Which of these it is was worked out by hand, from what each byte
//! of an entry says.

use crate::exchanges::bytes_of;
use crate::runs::{LATER, LATER_TOLD, Ran, WORDS, disk_failing, run_row};
use febe_data::{Memory, Text};
use green_fakes::MemoryDisk;
use green_io::{Area, Disk};
use std::alloc::Global;
use std::process::Abort;
use std::test::Fail;

/// A document that session 1 made as its third entry, and the text `hello`, its fourth, each behind a gate, as they were kept
/// before edits had moments. A closed gate is the last byte.
pub(crate) const BEFORE: [u8; 114] = [
    1, 0, 0, 0, 43, 1, 0, 0, 0, 0, 0, 0, 0, 1, 0, 0, 0, 0, 0, 0, 0, 3, 1, 6, 0, 0, 0, 1, 0, 0, 0,
    1, 0, 0, 0, 0, 0, 0, 0, 1, 0, 0, 0, 0, 0, 0, 0, 1, 1, 0, 0, 0, 60, 1, 0, 0, 0, 0, 0, 0, 0, 1,
    0, 0, 0, 0, 0, 0, 0, 4, 4, 6, 0, 0, 0, 1, 0, 0, 0, 1, 0, 0, 0, 0, 0, 0, 0, 1, 0, 0, 0, 0, 0, 0,
    0, 1, 0, 0, 0, 1, 0, 0, 0, 1, 0, 0, 0, 5, 104, 101, 108, 108, 111, 0,
];

/// The same with the moments 1003 and 1005, and a gate in front of all.
const TIMED: [u8; 143] = [
    1, 1, 0, 0, 0, 0, 0, 0, 0, 51, 2, 0, 0, 0, 0, 0, 0, 3, 235, 0, 0, 0, 0, 0, 0, 0, 1, 0, 0, 0, 0,
    0, 0, 0, 3, 1, 6, 0, 0, 0, 1, 0, 0, 0, 1, 0, 0, 0, 0, 0, 0, 0, 1, 0, 0, 0, 0, 0, 0, 0, 1, 1, 0,
    0, 0, 0, 0, 0, 0, 72, 2, 0, 0, 0, 0, 0, 0, 3, 237, 0, 0, 0, 0, 0, 0, 0, 1, 0, 0, 0, 0, 0, 0, 0,
    4, 4, 6, 0, 0, 0, 1, 0, 0, 0, 1, 0, 0, 0, 0, 0, 0, 0, 1, 0, 0, 0, 0, 0, 0, 0, 1, 0, 0, 0, 1, 0,
    0, 0, 1, 0, 0, 0, 0, 0, 0, 0, 5, 104, 101, 108, 108, 111, 0,
];

/// How long the text is.
const TEXT_LENGTH: usize = 5;

/// What comes of a log.
#[derive(Clone, Copy)]
enum Fate {
    /// The gate in front of all is closed, so it is no log.
    Closed,
    /// It is opened with so many entries.
    Opens(usize),
    /// It is damaged at this gate.
    Damaged(u64),
}

/// What comes of a byte below this offset that is changed, and that is not below those of the lines before.
type Below = (usize, Fate);

/// Bytes that were something else and are 0.
const BEFORE_CLEARED: &[Below] = &[
    // the gate of the first entry
    (1, Fate::Opens(0)),
    // each other byte of it: its length, form, session, serial and kind, and the places of an address that is the only one a
    // first document of this account may have
    (48, Fate::Damaged(0)),
    // the gate of the second
    (49, Fate::Opens(1)),
    // the same of it, the place of the text and the number of its first byte, which are 1 or more, and its length
    (108, Fate::Damaged(48)),
    // another text
    (113, Fate::Opens(2)),
];

/// Bytes that are 255. No byte was.
const BEFORE_FILLED: &[Below] = &[
    // the gate of the first entry
    (1, Fate::Opens(0)),
    // its length, which passes the area's end, and its form
    (6, Fate::Damaged(0)),
    // another session, whose only entry it is
    (14, Fate::Opens(2)),
    // a serial above 4, so that the second entry's is none of this session
    (22, Fate::Damaged(48)),
    // no kind, and more places than an address has
    (24, Fate::Damaged(0)),
    // the first two places of its address: a document of another account, so that the one which the second entry names is not
    // there
    (32, Fate::Damaged(48)),
    // a place that has to be 0: an address with one 0 is no document's
    (36, Fate::Damaged(0)),
    // the user: a document of another account once more
    (40, Fate::Damaged(48)),
    // the other 0, and a number above that of a first document
    (48, Fate::Damaged(0)),
    // the gate of the second entry
    (49, Fate::Opens(1)),
    // its length and its form
    (54, Fate::Damaged(48)),
    // another session or a higher serial, and it fits
    (70, Fate::Opens(2)),
    // no kind, too many places, a document that is not there, a place behind the text's end, a byte that is not the first, and
    // a length that passes the area's end
    (108, Fate::Damaged(48)),
    // another text, and a last gate that is not closed, behind which nothing stands
    (114, Fate::Opens(2)),
];

/// Bytes of the log with moments that were something else and are 0.
const TIMED_CLEARED: &[Below] = &[
    // the gate in front of all, and that of the first entry
    (1, Fate::Closed),
    (2, Fate::Opens(0)),
    // its length and form; its moment, which may be any
    (11, Fate::Damaged(1)),
    (19, Fate::Opens(2)),
    // its session, serial and kind, and the places of an address that is the only one a first document may have
    (61, Fate::Damaged(1)),
    // the gate of the second, and the same of it
    (62, Fate::Opens(1)),
    (71, Fate::Damaged(61)),
    (79, Fate::Opens(2)),
    // also the place of the text and the number of its first byte, which are 1 or more, and its length
    (137, Fate::Damaged(61)),
    // another text
    (142, Fate::Opens(2)),
];

/// Bytes of it that are 255. No byte was.
const TIMED_FILLED: &[Below] = &[
    // the gates
    (1, Fate::Closed),
    (2, Fate::Opens(0)),
    // its length, which passes the area's end, and its form
    (11, Fate::Damaged(1)),
    // another moment; another session, whose only entry it is
    (27, Fate::Opens(2)),
    // a serial above 4, so that the second entry's is none of this session
    (35, Fate::Damaged(61)),
    // no kind, and more places than an address has
    (37, Fate::Damaged(1)),
    // a document of another account, so that the one which the second entry names is not there
    (45, Fate::Damaged(61)),
    // a place that has to be 0; the user; the other 0, and a number above that of a first document
    (49, Fate::Damaged(1)),
    (53, Fate::Damaged(61)),
    (61, Fate::Damaged(1)),
    // the gate of the second entry, its length and its form
    (62, Fate::Opens(1)),
    (71, Fate::Damaged(61)),
    // another moment, another session or a higher serial, and it fits
    (95, Fate::Opens(2)),
    // no kind, too many places, a document that is not there, a place behind the text's end, a byte that is not the first, and
    // a length that passes the area's end
    (137, Fate::Damaged(61)),
    // another text, and a last gate that is not closed, behind which nothing stands
    (143, Fate::Opens(2)),
];

/// A log of one of the two formats: its area and its bytes, where it ends with so many entries, where its text stands, and what
/// comes of a byte that is changed.
struct Kept {
    area: Area,
    bytes: &'static [u8],
    gates: [usize; 3],
    text: usize,
    cleared: &'static [Below],
    filled: &'static [Below],
}

const OF_BEFORE: Kept = Kept {
    area: Area::Log,
    bytes: &BEFORE,
    gates: [0, 48, 113],
    text: 108,
    cleared: BEFORE_CLEARED,
    filled: BEFORE_FILLED,
};

const WITH_MOMENTS: Kept = Kept {
    area: Area::Second,
    bytes: &TIMED,
    gates: [1, 61, 142],
    text: 137,
    cleared: TIMED_CLEARED,
    filled: TIMED_FILLED,
};

/// How long the second area is with so many entries and a gate behind them.
const LENGTHS: [usize; 3] = [2, 62, 143];

/// What the first line says that has the offset below its bound.
fn fate_in(table: &[Below], at: usize) -> Option<Fate> {
    for (bound, fate) in table {
        if at < *bound {
            return Some(*fate);
        }
    }
    None
}

impl Kept {
    /// What comes of the log once the byte at this offset was changed. One that stays changes nothing.
    fn fate_of(&self, at: usize, old: u8, new: u8) -> Option<Fate> {
        if new == old {
            return Some(Fate::Opens(2));
        }
        match new {
            0 => fate_in(self.cleared, at),
            255 => fate_in(self.filled, at),
            _ => None,
        }
    }

    /// A disk with these bytes in the log's area.
    fn disk_with(&self, alloc: Global, log: &[u8]) -> Result<MemoryDisk, Memory> {
        let mut disk = disk_failing(alloc, &[])?;
        let Ok(()) = disk.write(self.area, 0, log) else {
            return Err(Memory);
        };
        Ok(disk)
    }
}

/// These bytes with another one at a place.
fn changed(alloc: Global, bytes: &[u8], at: usize, byte: u8) -> Result<Text, Memory> {
    let mut made = Text::new(alloc);
    for (before, old) in bytes.iter().enumerate() {
        let new = if before == at { byte } else { *old };
        made.push(new)?;
    }
    Ok(made)
}

/// Adds the bytes of the log's text, which stands here.
fn push_text(bytes: &mut Text, log: &[u8], text: usize) -> Result<(), Memory> {
    for (before, byte) in log.iter().enumerate() {
        if text <= before && before - text < TEXT_LENGTH {
            bytes.push(*byte)?;
        }
    }
    Ok(())
}

impl Kept {
    /// What the later session is told where the log has so many entries. With both of them it ends in the log's text.
    fn told_of(&self, alloc: Global, log: &[u8], entries: usize) -> Result<Text, Fail> {
        let row = LATER_TOLD.get(entries).ok_or("too many entries")?;
        let mut told = bytes_of(alloc, row)?;
        if entries == 2 {
            let front = told.len().saturating_sub(TEXT_LENGTH);
            told.truncate(front);
            push_text(&mut told, log, self.text)?;
        }
        Ok(told)
    }

    /// What the run leaves of the log, where so many entries were opened: the gate behind them is closed. That of before has
    /// moved.
    fn is_left(
        &self,
        alloc: Global,
        log: &[u8],
        disk: &MemoryDisk,
        entries: usize,
    ) -> Result<bool, Fail> {
        let second = disk.area(Area::Second);
        if self.area == Area::Log {
            let length = LENGTHS.as_slice().get(entries).ok_or("too many entries")?;
            return Ok(disk.area(Area::Log).is_empty() && second.len() == *length);
        }
        let gate = self.gates.as_slice().get(entries).ok_or("no gate")?;
        Ok(second == changed(alloc, log, *gate, 0)?.as_slice())
    }

    /// The log was opened, the session found so many entries, and the gate behind them is closed.
    fn check_opened(
        &self,
        rt: &impl Abort,
        alloc: Global,
        log: &[u8],
        ran: &Ran,
        entries: usize,
        at: usize,
    ) -> Result<(), Fail> {
        let opened = (entries as u64).saturating_add(1);
        assert!(rt; ran.status == 0 && ran.report.opened == opened, "at {at}");
        let told = self.told_of(alloc, log, entries)?;
        assert!(rt; ran.written() == told.as_slice(), "at {at}");
        assert!(rt; self.is_left(alloc, log, &ran.disk, entries)?, "at {at}");
        Ok(())
    }

    /// The log was closed: nothing was found, and one of no entries took its place.
    fn check_closed(
        &self,
        rt: &impl Abort,
        alloc: Global,
        ran: &Ran,
        at: usize,
    ) -> Result<(), Fail> {
        assert!(rt; ran.status == 0 && ran.report.opened == 1, "at {at}");
        let told = self.told_of(alloc, &[], 0)?;
        assert!(rt; ran.written() == told.as_slice(), "at {at}");
        assert!(rt; ran.disk.area(Area::Second) == [1, 0].as_slice(), "at {at}");
        Ok(())
    }

    /// The log was damaged at this place, nothing was told, and the log stays as it was. One of before whose entries can all be
    /// read has moved, with both of them.
    fn check_damaged(&self, rt: &impl Abort, log: &[u8], ran: &Ran, place: u64, at: usize) {
        assert!(rt; ran.status == 8 && ran.report.place == place, "at {at}");
        assert!(rt; ran.written().is_empty(), "at {at}");
        assert!(rt; ran.report.history.is_empty(), "at {at}");
        let stays = ran.disk.area(self.area) == log;
        let moved = self.area == Area::Log
            && ran.disk.area(Area::Log).is_empty()
            && ran.disk.area(Area::Second).len() == 143;
        assert!(rt; stays || moved, "at {at}");
    }

    /// The byte at this offset was changed.
    fn check_byte(
        &self,
        rt: &impl Abort,
        alloc: Global,
        at: usize,
        old: u8,
        new: u8,
    ) -> Result<(), Fail> {
        let log = changed(alloc, self.bytes, at, new)?;
        let log = log.as_slice();
        let ran = run_row(alloc, WORDS, LATER, self.disk_with(alloc, log)?)?;
        match self.fate_of(at, old, new).ok_or("no fate")? {
            Fate::Closed => self.check_closed(rt, alloc, &ran, at),
            Fate::Opens(entries) => self.check_opened(rt, alloc, log, &ran, entries, at),
            Fate::Damaged(place) => {
                self.check_damaged(rt, log, &ran, place, at);
                Ok(())
            }
        }
    }

    fn check_bytes(&self, rt: &impl Abort, alloc: Global) -> Result<(), Fail> {
        for (at, old) in self.bytes.iter().enumerate() {
            self.check_byte(rt, alloc, at, *old, 0)?;
            self.check_byte(rt, alloc, at, *old, 255)?;
        }
        Ok(())
    }
}

#[test]
fn each_byte_of_a_log_of_before_is_changed(rt: HostRuntime) -> Result<(), Fail> {
    OF_BEFORE.check_bytes(&rt, rt.alloc())
}

#[test]
fn each_byte_of_a_log_with_moments_is_changed(rt: HostRuntime) -> Result<(), Fail> {
    WITH_MOMENTS.check_bytes(&rt, rt.alloc())
}

/// A log of before that holds an entry which does not fit, its place in it, and its place in the second area, which the next run
/// names.
type Unfit = (usize, u8, u64, u64);

const UNFIT: &[Unfit] = &[
    // the session 0; a serial above that of the second entry
    (13, 0, 0, 1),
    (21, 255, 48, 61),
];

fn check_unfit(rt: &impl Abort, alloc: Global, row: &Unfit) -> Result<(), Fail> {
    let (at, byte, place, later) = *row;
    let log = changed(alloc, BEFORE.as_slice(), at, byte)?;
    let ran = run_row(
        alloc,
        WORDS,
        LATER,
        OF_BEFORE.disk_with(alloc, log.as_slice())?,
    )?;
    assert!(rt; ran.status == 8 && ran.report.place == place, "at {at}");
    let again = run_row(alloc, WORDS, LATER, ran.into_disk())?;
    assert!(rt; again.status == 8 && again.report.place == later, "at {at}");
    Ok(())
}

#[test]
fn a_log_that_has_moved_is_damaged_where_it_stands_now(rt: HostRuntime) -> Result<(), Fail> {
    for row in UNFIT {
        check_unfit(&rt, rt.alloc(), row)?;
    }
    Ok(())
}
