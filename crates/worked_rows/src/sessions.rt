//! Sessions on one flat world, and the bytes that they are told.

use febe_data::{Change, Entry, Limits, List, Memory, Request};
use febe_reply::write_reply;
use febe_wire::{Got, read_request};
use flat_world::FlatWorld;
use std::alloc::Global;
use tumbler::Text;

/// The address that the letter `A` of a row stands for.
const DOCUMENT: &[u8] = b"0.1.1.0.1.0.1";

/// Adds the byte of a row, or what it stands for.
fn push_letter(bytes: &mut Text, letter: u8) -> Result<(), Memory> {
    match letter {
        b' ' => Ok(()),
        b'A' => bytes.extend_from_slice(DOCUMENT),
        _ => bytes.push(letter),
    }
}

/// Adds the bytes of a row.
pub(crate) fn push_row(bytes: &mut Text, row: &str) -> Result<(), Memory> {
    for letter in row.as_bytes() {
        push_letter(bytes, *letter)?;
    }
    Ok(())
}

/// The bytes of a row.
pub(crate) fn bytes_of(alloc: Global, row: &str) -> Result<Text, Memory> {
    let mut bytes = Text::new(alloc);
    push_row(&mut bytes, row)?;
    Ok(bytes)
}

/// The request that all of the bytes spell.
pub(crate) fn request_of(alloc: Global, bytes: &[u8]) -> Result<Option<Request>, Memory> {
    match read_request(alloc, bytes)? {
        Got::Request { request, used } if used == bytes.len() => Ok(Some(request)),
        _ => Ok(None),
    }
}

/// A request of a session.
#[derive(Drop)]
struct Asked {
    session: u64,
    request: Request,
}

/// The bytes of the reply to the request.
fn told(alloc: Global, world: &FlatWorld, limits: &Limits, asked: &Asked) -> Result<Text, Memory> {
    let reply = world.answer(alloc, asked.session, &asked.request, limits)?;
    write_reply(alloc, &reply)
}

/// The entry that the request makes where it is not refused; none where it is a query.
fn entry_of(alloc: Global, world: &FlatWorld, asked: &Asked) -> Result<Option<Entry>, Memory> {
    world.entry(alloc, asked.session, &asked.request)
}

/// A world, the history that made it, and all that was asked.
pub(crate) struct Sessions {
    world: FlatWorld,
    history: List<Entry>,
    limits: Limits,
    asked: List<Asked>,
}

/// By hand, so that a caller's exits do not look into the fields.
impl Drop for Sessions {
    fn drop(self) {
        let Sessions {
            world: _,
            history: _,
            limits: _,
            asked: _,
        } = self;
    }
}

impl Sessions {
    /// The world of a back end that has just begun.
    pub(crate) fn new(alloc: Global, limits: Limits) -> Result<Sessions, Memory> {
        let mut sessions = Sessions {
            world: FlatWorld::new(alloc),
            history: List::new(alloc),
            limits,
            asked: List::new(alloc),
        };
        sessions.restart(alloc)?;
        Ok(sessions)
    }

    /// Ends all sessions at once, as an opening does.
    pub(crate) fn restart(&mut self, alloc: Global) -> Result<(), Memory> {
        let restart = Entry {
            session: 0,
            serial: 0,
            change: Change::Restart,
        };
        self.add(alloc, restart)
    }

    /// Adds an entry, which changes the world.
    fn add(&mut self, alloc: Global, entry: Entry) -> Result<(), Memory> {
        self.world.apply(alloc, &entry)?;
        self.history.push(entry)
    }

    /// Begins the session, unless it has an entry.
    pub(crate) fn begin(&mut self, alloc: Global, session: u64) -> Result<(), Memory> {
        if self.world.entries_of(session) > 0 {
            return Ok(());
        }
        let begin = Entry {
            session,
            serial: 1,
            change: Change::Begin,
        };
        self.add(alloc, begin)
    }

    /// Changes the world as the request says, if it changes anything.
    fn make(&mut self, alloc: Global, asked: &Asked) -> Result<(), Memory> {
        match entry_of(alloc, &self.world, asked)? {
            Some(entry) => self.add(alloc, entry),
            None => Ok(()),
        }
    }

    /// The bytes of the reply to a request of the session.
    pub(crate) fn answer(
        &mut self,
        alloc: Global,
        session: u64,
        request: Request,
    ) -> Result<Text, Memory> {
        let asked = Asked { session, request };
        let reply = told(alloc, &self.world, &self.limits, &asked)?;
        if !reply.as_slice().starts_with(b"?") {
            self.make(alloc, &asked)?;
        }
        self.asked.push(asked)?;
        Ok(reply)
    }

    /// The bytes of the reply to a request of the session, whose bytes are these. None where they spell no request.
    pub(crate) fn ask(
        &mut self,
        alloc: Global,
        session: u64,
        bytes: &[u8],
    ) -> Result<Option<Text>, Memory> {
        let Some(request) = request_of(alloc, bytes)? else {
            return Ok(None);
        };
        Ok(Some(self.answer(alloc, session, request)?))
    }

    /// Whether another world tells the same of this request.
    fn is_told_the_same(
        &self,
        alloc: Global,
        other: &FlatWorld,
        asked: &Asked,
    ) -> Result<bool, Memory> {
        let here = told(alloc, &self.world, &self.limits, asked)?;
        let there = told(alloc, other, &self.limits, asked)?;
        Ok(here.as_slice() == there.as_slice())
    }

    /// Whether the world that is folded from the history tells the same, now, of each request that was made.
    pub(crate) fn is_folded(&self, alloc: Global) -> Result<bool, Memory> {
        let folded = FlatWorld::fold(alloc, &self.history)?;
        for asked in self.asked.as_slice() {
            if !self.is_told_the_same(alloc, &folded, asked)? {
                return Ok(false);
            }
        }
        Ok(true)
    }
}
