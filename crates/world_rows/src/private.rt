//! What another account is told of private documents, and of those that are published, by the flat world.

use crate::histories::{ACCOUNT, FIRST, address, specs};
use febe_data::{
    Change, Entry, Limits, List, Memory, Mode, Refusal, Reply, Request, Rule, Spec, Tumbler, Want,
};
use flat_world::FlatWorld;
use std::alloc::Global;
use std::process::Abort;
use std::test::Fail;

/// Another account.
const OTHER: [u32; 4] = [1, 1, 0, 2];

/// Its first document.
const THEIRS: [u32; 6] = [1, 1, 0, 2, 0, 1];

/// The first version of the first document.
const VERSION: [u32; 7] = [1, 1, 0, 1, 0, 1, 1];

/// The first link that is made in the first document.
const LINK: [u32; 9] = [1, 1, 0, 1, 0, 1, 0, 2, 1];

/// What a session asks. The document is the first one of the first account.
#[derive(Clone, Copy)]
enum Asked {
    Account(&'static [u32]),
    Create,
    /// Opens the document for writing.
    Open(Rule),
    Publish,
    SpanSet,
    Follow,
    Close,
    Quit,
}

/// What it is told.
#[derive(Clone, Copy)]
enum Told {
    Done,
    Document(&'static [u32]),
    Refused(Refusal),
}

fn request_of(alloc: Global, asked: Asked) -> Result<Request, Memory> {
    let document = address(alloc, &FIRST)?;
    Ok(match asked {
        Asked::Account(places) => Request::Account {
            account: address(alloc, places)?,
        },
        Asked::Create => Request::Create,
        Asked::Open(rule) => Request::Open {
            document,
            mode: Mode::Write,
            rule,
        },
        Asked::Publish => Request::Publish { document },
        Asked::SpanSet => Request::SpanSet { document },
        Asked::Follow => Request::Follow {
            link: address(alloc, &LINK)?,
            end: 1,
        },
        Asked::Close => Request::Close { document },
        Asked::Quit => Request::Quit,
    })
}

fn is_document(alloc: Global, document: &Tumbler, told: Told) -> Result<bool, Memory> {
    let Told::Document(places) = told else {
        return Ok(false);
    };
    Ok(*document == address(alloc, places)?)
}

fn is_told(alloc: Global, reply: &Reply, told: Told) -> Result<bool, Memory> {
    match reply {
        Reply::Created(document) | Reply::Opened(document) => is_document(alloc, document, told),
        Reply::Refused(refusal) => match told {
            Told::Refused(wanted) => Ok(*refusal == wanted),
            _ => Ok(false),
        },
        Reply::AccountSet | Reply::Published | Reply::Closed | Reply::Quit => {
            Ok(matches!(told, Told::Done))
        }
        _ => Ok(false),
    }
}

fn is_refused(reply: &Reply) -> bool {
    match reply {
        Reply::Refused(_) => true,
        _ => false,
    }
}

/// The reply to a request. What it changes comes into the world.
fn reply_to(
    alloc: Global,
    world: &mut FlatWorld,
    session: u64,
    request: &Request,
) -> Result<Reply, Fail> {
    let limits = Limits::new(100, 1_000, 10)?;
    let reply = world.answer(alloc, session, request, &limits)?;
    if is_refused(&reply) {
        return Ok(reply);
    }
    let Some(entry) = world.entry(alloc, session, request)? else {
        return Ok(reply);
    };
    world.apply(alloc, &entry)?;
    Ok(reply)
}

/// A session, what it asks, and what it is told.
type Step = (u64, Asked, Told);

/// Two sessions, one document. It is private until its maker publishes it.
const SHARED: &[Step] = &[
    (1, Asked::Account(&ACCOUNT), Told::Done),
    (1, Asked::Create, Told::Document(&FIRST)),
    (
        2,
        Asked::Open(Rule::Refuse),
        Told::Refused(Refusal::NoAccount),
    ),
    (2, Asked::Publish, Told::Refused(Refusal::Private)),
    (2, Asked::Account(&OTHER), Told::Done),
    (
        2,
        Asked::Open(Rule::Refuse),
        Told::Refused(Refusal::Private),
    ),
    (2, Asked::Open(Rule::Copy), Told::Refused(Refusal::Private)),
    (1, Asked::Publish, Told::Done),
    (1, Asked::Publish, Told::Done),
    (2, Asked::Publish, Told::Refused(Refusal::NotOpen)),
    (
        2,
        Asked::Open(Rule::Refuse),
        Told::Refused(Refusal::NotOwner),
    ),
    (2, Asked::Open(Rule::Copy), Told::Document(&THEIRS)),
    (2, Asked::Account(&ACCOUNT), Told::Done),
    (
        2,
        Asked::Open(Rule::Refuse),
        Told::Refused(Refusal::Conflict),
    ),
    (2, Asked::Open(Rule::Copy), Told::Document(&VERSION)),
    (1, Asked::Quit, Told::Done),
    (2, Asked::Open(Rule::Refuse), Told::Document(&FIRST)),
];

#[test]
fn a_document_is_private_until_it_is_published(rt: HostRuntime) -> Result<(), Fail> {
    let alloc = rt.alloc();
    let mut world = FlatWorld::new(alloc);
    for (session, asked, told) in SHARED {
        let request = request_of(alloc, *asked)?;
        let reply = reply_to(alloc, &mut world, *session, &request)?;
        assert!(rt; is_told(alloc, &reply, *told)?);
    }
    Ok(())
}

/// Makes a change as one of the session's entries.
fn enter(alloc: Global, world: &mut FlatWorld, session: u64, change: Change) -> Result<(), Memory> {
    let entry = Entry {
        session,
        serial: 1,
        change,
    };
    world.apply(alloc, &entry)
}

/// A session sets the account and makes the document.
fn make(
    alloc: Global,
    world: &mut FlatWorld,
    session: u64,
    account: &[u32],
    document: &[u32],
) -> Result<(), Memory> {
    let account = address(alloc, account)?;
    enter(alloc, world, session, Change::Account { account })?;
    let document = address(alloc, document)?;
    enter(alloc, world, session, Change::Create { document })
}

/// Session 2 publishes a text.
fn publish_text(alloc: Global, world: &mut FlatWorld) -> Result<(), Memory> {
    make(alloc, world, 2, &OTHER, &THEIRS)?;
    let inserted = Change::Insert {
        document: address(alloc, &THEIRS)?,
        at: 1,
        first: 1,
        text: List::from_slice(alloc, b"abc")?,
    };
    enter(alloc, world, 2, inserted)?;
    let document = address(alloc, &THEIRS)?;
    enter(alloc, world, 2, Change::Publish { document })
}

/// Session 1 quotes it in private, and links it from there.
fn quote_text(alloc: Global, world: &mut FlatWorld) -> Result<(), Memory> {
    make(alloc, world, 1, &ACCOUNT, &FIRST)?;
    let quoted = Change::Copy {
        document: address(alloc, &FIRST)?,
        at: 1,
        specs: specs(alloc, &THEIRS, 1, 2)?,
    };
    enter(alloc, world, 1, quoted)?;
    let linked = Change::Link {
        home: address(alloc, &FIRST)?,
        number: 1,
        place: 1,
        from: specs(alloc, &FIRST, 1, 1)?,
        to: List::new(alloc),
        three: List::new(alloc),
    };
    enter(alloc, world, 1, linked)
}

fn answered(alloc: Global, world: &FlatWorld, request: &Request) -> Result<Reply, Fail> {
    let limits = Limits::new(100, 1_000, 10)?;
    Ok(world.answer(alloc, 2, request, &limits)?)
}

/// Whether session 2 finds these documents by its text.
fn finds(alloc: Global, world: &FlatWorld, wanted: &[Tumbler]) -> Result<bool, Fail> {
    let specs = specs(alloc, &THEIRS, 1, 3)?;
    let reply = answered(alloc, world, &Request::FindDocuments { specs })?;
    let Reply::Documents(found) = &reply else {
        return Ok(false);
    };
    Ok(found.as_slice() == wanted)
}

/// How many links it counts by its text.
fn counted(alloc: Global, world: &FlatWorld) -> Result<Option<u32>, Fail> {
    let want = Want {
        homes: List::new(alloc),
        from: specs(alloc, &THEIRS, 1, 3)?,
        to: List::new(alloc),
        three: List::new(alloc),
    };
    let reply = answered(alloc, world, &Request::CountLinks { want })?;
    let Reply::LinkCount(count) = &reply else {
        return Ok(None);
    };
    Ok(Some(*count))
}

fn spans_in(specs: &[Spec]) -> Option<usize> {
    let [spec] = specs else {
        return None;
    };
    Some(spec.spans.len())
}

/// In how many spans its text is in the first end of a link.
fn linked_spans(alloc: Global, world: &FlatWorld) -> Result<Option<usize>, Fail> {
    let specs = specs(alloc, &THEIRS, 1, 3)?;
    let reply = answered(alloc, world, &Request::EndSets { specs })?;
    let Reply::EndSets {
        from,
        to: _,
        three: _,
    } = &reply
    else {
        return Ok(None);
    };
    Ok(spans_in(from.as_slice()))
}

/// Checks that session 2 knows of its own document alone.
fn check_alone(rt: &impl Abort, alloc: Global, world: &FlatWorld) -> Result<(), Fail> {
    let own = [address(alloc, &THEIRS)?];
    assert!(rt; finds(alloc, world, own.as_slice())?);
    assert_eq!(rt; counted(alloc, world)?, Some(0));
    assert_eq!(rt; linked_spans(alloc, world)?, Some(0));
    Ok(())
}

/// Checks that it knows of the quotation and of the link.
fn check_quoted(rt: &impl Abort, alloc: Global, world: &FlatWorld) -> Result<(), Fail> {
    let both = [address(alloc, &FIRST)?, address(alloc, &THEIRS)?];
    assert!(rt; finds(alloc, world, both.as_slice())?);
    assert_eq!(rt; counted(alloc, world)?, Some(1));
    assert_eq!(rt; linked_spans(alloc, world)?, Some(1));
    Ok(())
}

#[test]
fn what_is_private_shows_in_no_answer(rt: HostRuntime) -> Result<(), Fail> {
    let alloc = rt.alloc();
    let mut alone = FlatWorld::new(alloc);
    publish_text(alloc, &mut alone)?;
    check_alone(&rt, alloc, &alone)?;
    let mut quoted = FlatWorld::new(alloc);
    publish_text(alloc, &mut quoted)?;
    quote_text(alloc, &mut quoted)?;
    check_alone(&rt, alloc, &quoted)
}

#[test]
fn what_is_published_shows(rt: HostRuntime) -> Result<(), Fail> {
    let alloc = rt.alloc();
    let mut quoted = FlatWorld::new(alloc);
    publish_text(alloc, &mut quoted)?;
    quote_text(alloc, &mut quoted)?;
    let document = address(alloc, &FIRST)?;
    enter(alloc, &mut quoted, 1, Change::Publish { document })?;
    check_quoted(&rt, alloc, &quoted)
}

/// The maker under another account, which has what it had open: it may close that and no more.
const LEFT: &[Step] = &[
    (1, Asked::Account(&OTHER), Told::Done),
    (1, Asked::Follow, Told::Refused(Refusal::NoSuchLink)),
    (1, Asked::SpanSet, Told::Refused(Refusal::Private)),
    (1, Asked::Close, Told::Done),
];

#[test]
fn an_account_that_is_left_may_close(rt: HostRuntime) -> Result<(), Fail> {
    let alloc = rt.alloc();
    let mut world = FlatWorld::new(alloc);
    publish_text(alloc, &mut world)?;
    quote_text(alloc, &mut world)?;
    for (session, asked, told) in LEFT {
        let request = request_of(alloc, *asked)?;
        let reply = reply_to(alloc, &mut world, *session, &request)?;
        assert!(rt; is_told(alloc, &reply, *told)?);
    }
    Ok(())
}
