//! Which entries fit after a short log.

use crate::histories::{FIRST, SECOND, address, specs};
use entry_fits::{Serials, fits};
use febe_data::{Change, Entry, List, Memory, Tumbler};
use flat_world::FlatWorld;
use std::alloc::Global;
use std::process::Abort;
use std::test::Fail;

/// A log whose entries were added one after the other.
struct Log {
    world: FlatWorld,
    serials: Serials,
}

/// By hand, so that a caller's exits do not look into the fields.
impl Drop for Log {
    fn drop(self) {
        let Log {
            world: _,
            serials: _,
        } = self;
    }
}

impl Log {
    fn add(&mut self, alloc: Global, entry: &Entry) -> Result<(), Memory> {
        self.world.apply(alloc, entry)?;
        self.serials.add(entry)
    }

    /// Whether the change fits, by this session and with this serial.
    fn fits(
        &self,
        alloc: Global,
        session: u64,
        serial: u64,
        change: Change,
    ) -> Result<bool, Memory> {
        let entry = Entry {
            session,
            serial,
            change,
        };
        fits(&self.world, alloc, self.serials.greatest(session), &entry)
    }
}

fn created(alloc: Global, document: &[u32]) -> Result<Change, Memory> {
    Ok(Change::Create {
        document: address(alloc, document)?,
    })
}

fn inserted(alloc: Global, at: u32, first: u32) -> Result<Change, Memory> {
    Ok(Change::Insert {
        document: address(alloc, &FIRST)?,
        at,
        first,
        text: List::from_slice(alloc, b"abc")?,
    })
}

fn linked(alloc: Global, number: u32, place: u32, of: &[u32]) -> Result<Change, Memory> {
    Ok(Change::Link {
        home: address(alloc, &FIRST)?,
        number,
        place,
        from: specs(alloc, of, 1, 1)?,
        to: List::new(alloc),
        three: List::new(alloc),
    })
}

fn published(alloc: Global, document: &[u32]) -> Result<Change, Memory> {
    Ok(Change::Publish {
        document: address(alloc, document)?,
    })
}

/// The log in which session 4 made a document, and put `abc` into it.
fn short_log(alloc: Global) -> Result<Log, Memory> {
    let mut log = Log {
        world: FlatWorld::new(alloc),
        serials: Serials::new(alloc),
    };
    for (serial, change) in [(3, created(alloc, &FIRST)?), (5, inserted(alloc, 1, 1)?)] {
        let entry = Entry {
            session: 4,
            serial,
            change,
        };
        log.add(alloc, &entry)?;
    }
    Ok(log)
}

#[test]
fn text_fits_by_its_numbers(rt: HostRuntime) -> Result<(), Fail> {
    let alloc = rt.alloc();
    let log = short_log(alloc)?;
    for (session, serial, at, first, wanted) in [
        (4, 6, 4, 4, true),
        (4, 6, 1, 4, true),
        (7, 1, 4, 4, true),
        (4, 5, 4, 4, false),
        (0, 6, 4, 4, false),
        (7, 0, 4, 4, false),
        (4, 6, 5, 4, false),
        (4, 6, 0, 4, false),
        (4, 6, 4, 3, false),
    ] {
        let change = inserted(alloc, at, first)?;
        assert_eq!(rt;
            log.fits(alloc, session, serial, change),
            Ok(wanted),
            "at {at} {first}"
        );
    }
    Ok(())
}

#[test]
fn documents_and_links_fit_by_their_places(rt: HostRuntime) -> Result<(), Fail> {
    let alloc = rt.alloc();
    let log = short_log(alloc)?;
    for (change, wanted) in [
        (created(alloc, &SECOND)?, true),
        (created(alloc, &FIRST)?, false),
        (created(alloc, &[1, 1, 0, 1, 0, 3])?, false),
        (linked(alloc, 1, 1, &FIRST)?, true),
        (linked(alloc, 2, 1, &FIRST)?, false),
        (linked(alloc, 1, 2, &FIRST)?, false),
        (linked(alloc, 1, 1, &SECOND)?, false),
        (Change::Begin, false),
    ] {
        assert_eq!(rt; log.fits(alloc, 4, 6, change), Ok(wanted));
    }
    Ok(())
}

#[test]
fn a_publish_fits_where_its_document_is_there(rt: HostRuntime) -> Result<(), Fail> {
    let alloc = rt.alloc();
    let log = short_log(alloc)?;
    let (there, absent) = (published(alloc, &FIRST)?, published(alloc, &SECOND)?);
    assert_eq!(rt; log.fits(alloc, 4, 6, there), Ok(true));
    assert_eq!(rt; log.fits(alloc, 4, 6, absent), Ok(false));
    Ok(())
}
