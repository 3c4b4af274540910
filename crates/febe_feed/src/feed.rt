//! The feed: a greeting, then requests, from pieces.
ghost use Rattle.std.specs.Prelude.{◌≡◌, ◌++◌, ◌≤◌, ◌-◌, ◌^◌, false, true, [], length, drop, OnOk, OnErr, IfOk, IfSome, IfNone};

use crate::buffer::Buffer;
use crate::greeting::scan_greeting;
use febe_data::{Memory, Request};
use febe_fields::Scanned;
use febe_wire::{RequestScanner, read_at_once, read_spelled};
use std::alloc::Global;
use std::marker::Model;

/// What comes next in a stream.
#[derive(Debug, Drop)]
pub enum Next {
    /// The greeting, which is first.
    Greeting,
    Request(Request),
    /// The bytes held are a proper prefix of what is awaited; there may be none.
    NotYet,
    /// The byte at this offset in the stream can't stand there.
    Bad { at: u64 },
}

/// A stream of bytes that comes in pieces: the greeting, and then requests. Quit is a request like any other
/// here: what follows it is read too.
///
/// Each byte is looked at a bounded number of times, however the stream is cut, and bytes that were given out are let go.
#[derive(Debug, Drop)]
pub struct Feed {
    held: Buffer,
    greeted: bool,
    /// How many bytes of the stream have gone, or the greatest number.
    offset: u64,
    /// How many of the bytes held the scan has passed, and where it is then.
    scanned: usize,
    scanner: RequestScanner,
    /// Where the bytes held are bad, where that is known.
    bad: Option<usize>,
    /// Room for a piece to come, kept from one to the next.
    room: Option<Box<[u8; 4096]>>,
}

impl Model for Feed {
    ghost use Rattle.febe_feed.specs.FeedView.{FeedView};
    ghost use Rattle.febe_feed.specs.inside.IsFeed.{IsFeed};

    ghost Value = { FeedView };

    ghost view = { λ f. record { greeted = f.greeted; held = f.held.bytes; offset = f.offset } };

    ghost invariant = { λ f. IsFeed f.held.bytes f.scanned f.scanner f.bad };
}

impl Feed {
    ghost use Rattle.febe_data.specs.Plain.{plain_request};
    ghost use Rattle.febe_feed.specs.FeedView.{FeedView, GivesRequest, IsNext, later, with_piece};
    ghost use Rattle.febe_fields.specs.Prefixes.{HasSpelledPrefix};
    ghost use Rattle.febe_wire.specs.Grammar.{IsSpelled};

    /// A stream of which nothing has come. It takes no memory.
    pub fn new(alloc: Global) -> Feed
        ensures { result ≡ record { greeted = false; held = []; offset = 0 } }
    {
        Feed {
            held: Buffer::new(alloc),
            greeted: false,
            offset: 0,
            scanned: 0,
            scanner: RequestScanner::Start,
            bad: None,
            room: None,
        }
    }

    /// How many bytes are held.
    pub fn held(&self) -> usize
        ensures { result ≡ length self.now.held }
    {
        self.held.as_slice().len()
    }

    /// The offset in the stream behind the last byte that came, or the greatest number.
    pub fn end(&self) -> u64
        ensures { result ≡ later self.now.offset (length self.now.held) }
    {
        self.place(self.held())
    }

    /// Adds a piece of the stream. Refused, all is as it was.
    pub fn push(&mut self, alloc: Global, piece: &[u8]) -> Result<(), Memory>
        ensures ok { OnOk result (self.new ≡ with_piece self.old piece.now) }
        ensures err { OnErr result (self.new ≡ self.old) }
    {
        self.held.push(alloc, piece)
    }

    /// Room into which a piece may be read. It takes memory only where none was given back.
    pub fn take_room(&mut self, alloc: Global) -> Result<Box<[u8; 4096]>, Memory>
        ensures { self.new ≡ self.old }
    {
        if let Some(room) = self.room.take() {
            return Ok(room);
        }
        let room = Box::new(alloc, [0; 4096])?;
        Ok(room)
    }

    /// Gives room back, for the next piece.
    pub fn give_back_room(&mut self, room: Box<[u8; 4096]>)
        ensures { self.new ≡ self.old }
    {
        self.room = Some(room);
    }

    /// What comes next. Where memory ran out, all is as it was.
    pub fn next(&mut self, alloc: Global) -> Result<Next, Memory>
        ensures next { IfOk result (λ next. IsNext self.old self.new next) }
        ensures err { OnErr result (self.new ≡ self.old) }
    {
        if self.greeted {
            return self.next_request(alloc);
        }
        Ok(self.next_greeting())
    }

    fn next_greeting(&mut self) -> Next
        requires { self.old.greeted ≡ false }
        ensures { IsNext self.old self.new result }
    {
        match scan_greeting(self.held.as_slice()) {
            Scanned::Incomplete => Next::NotYet,
            Scanned::Bad { at } => Next::Bad { at: self.place(at) },
            Scanned::Complete { used } => {
                self.pass(used);
                self.greeted = true;
                Next::Greeting
            }
        }
    }

    fn next_request(&mut self, alloc: Global) -> Result<Next, Memory>
        requires { self.old.greeted ≡ true }
        ensures next { IfOk result (λ next. IsNext self.old self.new next) }
        ensures err { OnErr result (self.new ≡ self.old) }
    {
        if let Some(at) = self.bad {
            return Ok(Next::Bad { at: self.place(at) });
        }
        match self.take_unscanned(alloc) {
            Some(request) => Ok(Next::Request(request)),
            None => self.scan_on(alloc),
        }
    }

    /// The request that the first bytes spell, where that is short and none of it was scanned. A scan goes on where
    /// this gives none, and is not begun anew, so that bytes are read in vain once at most, in whatever pieces they come.
    fn take_unscanned(&mut self, alloc: Global) -> Option<Request>
        requires { self.old.greeted ≡ true }
        ensures some { IfSome result (λ request. GivesRequest self.old self.new (plain_request request)) }
        ensures none { IfNone result (self.new ≡ self.old) }
    {
        if self.scanned > 0 {
            return None;
        }
        let Ok(read) = read_at_once(alloc, self.held.as_slice()) else {
            return None;
        };
        let Some((request, used)) = read else {
            return None;
        };
        self.pass(used);
        Some(request)
    }

    /// Goes on with the scan over the bytes that it has not passed, and reads the request that it finds whole.
    fn scan_on(&mut self, alloc: Global) -> Result<Next, Memory>
        requires { self.old.greeted ≡ true }
        ensures next { IfOk result (λ next. IsNext self.old self.new next) }
        ensures err { OnErr result (self.new ≡ self.old) }
    {
        let total = self.held();
        let (_, rest) = self.held.as_slice().split_at(self.scanned);
        let mut scanner = self.scanner;
        match scanner.scan(rest) {
            Scanned::Incomplete => {
                self.scanned = total;
                self.scanner = scanner;
                Ok(Next::NotYet)
            }
            Scanned::Bad { at } => {
                let at = self.scanned + at;
                self.bad = Some(at);
                Ok(Next::Bad { at: self.place(at) })
            }
            Scanned::Complete { used } => {
                let used = self.scanned + used;
                self.take_request(alloc, used)
            }
        }
    }

    /// Reads the request that the first bytes spell, and lets them go.
    fn take_request(&mut self, alloc: Global, used: usize) -> Result<Next, Memory>
        requires greeted { self.old.greeted ≡ true }
        requires scanned { HasSpelledPrefix IsSpelled self.old.held used }
        ensures next { IfOk result (λ next. IsNext self.old self.new next) }
        ensures err { OnErr result (self.new ≡ self.old) }
    {
        let request = read_spelled(alloc, self.held.as_slice(), used)?;
        self.pass(used);
        Ok(Next::Request(request))
    }

    /// Lets the first bytes go, and begins a new scan behind them.
    fn pass(&mut self, count: usize)
        requires { count ≤ length self.old.held }
        ensures { self.new ≡ record { greeted = self.old.greeted; held = drop count self.old.held; offset = later self.old.offset count } }
    {
        let offset = self.place(count);
        self.held.pass(count);
        self.offset = offset;
        self.scanned = 0;
        self.scanner = RequestScanner::Start;
        self.bad = None;
    }

    /// The offset in the stream of a byte that is held.
    fn place(&self, at: usize) -> u64
        ensures { result ≡ later self.now.offset at }
    {
        self.offset.saturating_add(at as u64)
    }
}
