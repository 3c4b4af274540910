//! Requests that look random, of three sessions of three accounts, answered by the flat world and by a store alike.

use crate::disk_rows::disk_failing;
use crate::flat_tables::most;
use crate::sessions::{Sessions, request_of};
use crate::store_rows::{House, ask, begin, flushes, house_over};
use febe_data::{Generator, Memory, Text};
use std::alloc::Global;
use std::process::Abort;
use std::test::Fail;

/// Requests in which a capital letter stands for a word that is drawn.
const FORMS: &[&str] = &[
    "0~DPT",
    "0~DPT",
    "0~DPT",
    "0~DPT",
    "1~D",
    "2~DP1~D1~PW",
    "2~DP1~D1~PW",
    "3~D3~0.1.1~0.1.2~0.1.4~",
    "5~1~D1~0.1.1~0.2~",
    "5~2~D1~PWD1~PW",
    "10~D1~0.1.1~1.9~D1~0.1.1~1.9~",
    "11~",
    "12~DPW",
    "12~D0.2.1~1.1~",
    "13~D",
    "14~D",
    "18~LE",
    "18~LE",
    "18~LE",
    "22~1~D1~PW",
    "22~1~D1~PW",
    "22~2~D1~PWD1~PW",
    "27~D1~D1~PW1~D1~PW0~",
    "27~D1~D1~PW1~D1~PW1~D1~PW",
    "27~D1~D1~PW0~0~",
    "28~1~D1~0.1.1~1.9~",
    "28~2~D1~PWD1~PW",
    "29~0~0~0~0~",
    "29~0~1~D1~PW0~0~",
    "29~1~H0~0~0~",
    "30~0~0~0~0~",
    "30~0~0~1~D1~PW0~",
    "30~1~H0~0~0~",
    "31~0~0~0~0~L2~",
    "31~0~1~D1~PW0~0~L1~",
    "34~C",
    "35~DMR",
    "35~DMR",
    "35~DMR",
    "35~DMR",
    "35~DMR",
    "35~DMR",
    "35~DMR",
    "35~DMR",
    "35~DMR",
    "35~DMR",
    "35~DMR",
    "36~D",
    "40~D",
    "40~D",
    "40~D",
    "40~D",
    "40~D",
];

const DOCUMENTS: &[&str] = &[
    "0.1.1.0.1.0.1~",
    "0.1.1.0.1.0.2~",
    "0.1.1.0.1.0.3~",
    "0.1.1.0.2.0.1~",
    "0.1.1.0.2.0.2~",
    "0.1.1.0.2.0.3~",
    "0.1.1.0.3.0.1~",
    "0.1.1.0.3.0.2~",
    "0.1.1.0.3.0.3~",
    "0.1.1.0.1.0.1.1~",
    "0.1.1.0.2.0.1.1~",
];

const LINKS: &[&str] = &[
    "0.1.1.0.1.0.1.0.2.1~",
    "0.1.1.0.1.0.1.0.2.2~",
    "0.1.1.0.1.0.2.0.2.1~",
    "0.1.1.0.2.0.1.0.2.1~",
    "0.1.1.0.2.0.2.0.2.1~",
    "0.1.1.0.3.0.1.0.2.1~",
    "0.1.1.0.3.0.2.0.2.1~",
    "0.1.1.0.1.0.1.1.0.2.1~",
];

const ACCOUNTS: &[&str] = &["0.1.1.0.1~", "0.1.1.0.2~", "0.1.1.0.3~"];

/// The homes of one account.
const HOMES: &[&str] = &["0.1.1.0.1~3.1~", "0.1.1.0.2~3.1~", "0.1.1.0.3~3.1~"];

const POSITIONS: &[&str] = &["0.1.1~", "0.1.2~", "0.1.3~", "0.1.5~"];

const WIDTHS: &[&str] = &["1.1~", "1.2~", "1.4~", "0.1~"];

const TEXTS: &[&str] = &["t1:x", "t2:yz", "t4:abcd"];

const ENDS: &[&str] = &["1~", "2~", "3~"];

const MODES: &[&str] = &["1~", "2~", "2~"];

const RULES: &[&str] = &["1~", "1~", "2~", "3~"];

/// The words that a letter of a form stands for; none where it is a byte of the request.
fn words_of(letter: u8) -> &'static [&'static str] {
    match letter {
        b'D' => DOCUMENTS,
        b'L' => LINKS,
        b'C' => ACCOUNTS,
        b'H' => HOMES,
        b'P' => POSITIONS,
        b'W' => WIDTHS,
        b'T' => TEXTS,
        b'E' => ENDS,
        b'M' => MODES,
        b'R' => RULES,
        _ => &[],
    }
}

/// One of the words, which the next number chooses.
fn pick(generator: &mut Generator, words: &[&'static str]) -> &'static str {
    if words.is_empty() {
        return "";
    }
    words[generator.next() as usize % words.len()]
}

/// Adds a letter of a form, or a word in its place.
fn push_drawn(bytes: &mut Text, generator: &mut Generator, letter: u8) -> Result<(), Memory> {
    let words = words_of(letter);
    if words.is_empty() {
        return bytes.push(letter);
    }
    bytes.extend_from_slice(pick(generator, words).as_bytes())
}

/// The bytes of the next request.
fn drawn(alloc: Global, generator: &mut Generator) -> Result<Text, Memory> {
    let form = pick(generator, FORMS);
    let mut bytes = Text::new(alloc);
    for letter in form.as_bytes() {
        push_drawn(&mut bytes, generator, *letter)?;
    }
    Ok(bytes)
}

/// How many replies were such.
#[derive(Clone, Copy)]
struct Seen {
    private: u64,
    published: u64,
    accepted: u64,
}

impl Seen {
    fn add(&mut self, reply: &[u8]) {
        if reply == b"?15~".as_slice() {
            self.private = self.private.saturating_add(1);
        }
        if reply == b"40~".as_slice() {
            self.published = self.published.saturating_add(1);
        }
        if !reply.starts_with(b"?") {
            self.accepted = self.accepted.saturating_add(1);
        }
    }
}

/// Three sessions of a flat world, and of a store over a disk, which are asked the same.
struct Beside {
    flat: Sessions,
    house: House,
    /// The number of the first of the three.
    first: u64,
    seen: Seen,
}

/// By hand, so that a caller's exits do not look into the fields.
impl Drop for Beside {
    fn drop(self) {
        let Beside {
            flat: _,
            house: _,
            first: _,
            seen: _,
        } = self;
    }
}

impl Beside {
    fn new(alloc: Global) -> Result<Beside, Fail> {
        Ok(Beside {
            flat: Sessions::new(alloc, most()?)?,
            house: house_over(alloc, disk_failing(alloc, &[])?, 16)?,
            first: 1,
            seen: Seen {
                private: 0,
                published: 0,
                accepted: 0,
            },
        })
    }

    /// Both answer the same. The store then puts one thing right, if there is one.
    fn check(
        &mut self,
        rt: &impl Abort,
        alloc: Global,
        session: u64,
        bytes: &[u8],
    ) -> Result<(), Fail> {
        let request = request_of(alloc, bytes)?.ok_or("no request")?;
        let wanted = self.flat.answer(alloc, session, request.try_clone(alloc)?)?;
        let told = ask(alloc, &mut self.house, session, request)?;
        assert_eq!(rt;
            told.as_slice(),
            wanted.as_slice(),
            "at {session} {bytes:?}"
        );
        self.seen.add(told.as_slice());
        flushes(alloc, &mut self.house);
        Ok(())
    }

    /// The session begins, and sets its account.
    fn begin(
        &mut self,
        rt: &impl Abort,
        alloc: Global,
        session: u64,
        account: &str,
    ) -> Result<(), Fail> {
        assert!(rt; begin(alloc, &mut self.house) == Some(session));
        self.flat.begin(alloc, session)?;
        let mut bytes = Text::from_slice(alloc, b"34~")?;
        bytes.extend_from_slice(account.as_bytes())?;
        self.check(rt, alloc, session, bytes.as_slice())
    }

    fn begin_all(&mut self, rt: &impl Abort, alloc: Global) -> Result<(), Fail> {
        let mut session = self.first;
        for account in ACCOUNTS {
            self.begin(rt, alloc, session, account)?;
            session = session.saturating_add(1);
        }
        Ok(())
    }

    /// Some session makes the next request.
    fn check_next(
        &mut self,
        rt: &impl Abort,
        alloc: Global,
        generator: &mut Generator,
    ) -> Result<(), Fail> {
        let session = self.first.saturating_add(u64::from(generator.next() % 3));
        let bytes = drawn(alloc, generator)?;
        self.check(rt, alloc, session, bytes.as_slice())
    }

    fn check_many(
        &mut self,
        rt: &impl Abort,
        alloc: Global,
        generator: &mut Generator,
        count: u32,
    ) -> Result<(), Fail> {
        for _ in 0..count {
            self.check_next(rt, alloc, generator)?;
        }
        Ok(())
    }

    /// The store is opened again from its disk, and goes on from pages. Its sessions are over.
    fn reopen(&mut self, rt: &impl Abort, alloc: Global) -> Result<(), Fail> {
        let disk = self.house.disk.crash(u64::MAX, 0)?;
        let house = house_over(alloc, disk, 16)?;
        assert!(rt; house.store.flushed() > 0);
        self.house = house;
        self.flat.restart(alloc)?;
        self.first = 4;
        Ok(())
    }

    /// Enough was asked that is refused, and enough that is not.
    fn check_seen(&self, rt: &impl Abort) {
        let Seen {
            private,
            published,
            accepted,
        } = self.seen;
        assert!(rt; private > 300, "{private} private");
        assert!(rt; published > 10, "{published} published");
        assert!(rt; accepted > 500, "{accepted} accepted");
    }
}

#[test]
fn drawn_requests_are_answered_alike(rt: HostRuntime) -> Result<(), Fail> {
    let alloc = rt.alloc();
    let mut generator = Generator::new(47);
    let mut beside = Beside::new(alloc)?;
    beside.begin_all(&rt, alloc)?;
    beside.check_many(&rt, alloc, &mut generator, 1_000)?;
    beside.reopen(&rt, alloc)?;
    beside.begin_all(&rt, alloc)?;
    beside.check_many(&rt, alloc, &mut generator, 1_000)?;
    beside.check_seen(&rt);
    Ok(())
}
