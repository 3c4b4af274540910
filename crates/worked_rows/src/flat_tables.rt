//! The tables' requests, asked of the flat world.

use crate::sessions::{Sessions, bytes_of, push_row};
use crate::tables::{ACCESS, EDITS, LIMITED, LINKS, PRIVATE, Row, Step, TWO_WRITERS, VERSIONS};
use febe_data::{BadLimits, Limits};
use std::alloc::Global;
use std::process::Abort;
use std::test::Fail;
use tumbler::Text;

/// After how many kept entries pages are written. The flat world writes none.
const FLUSH: u32 = 256;

/// The limits of a back end that names none.
pub(crate) fn most() -> Result<Limits, BadLimits> {
    Limits::new(4_194_304, 1_073_741_824, FLUSH)
}

/// What the session is told to one request after the other.
fn replies_to(
    alloc: Global,
    sessions: &mut Sessions,
    session: u64,
    requests: &str,
) -> Result<Text, Fail> {
    let mut replies = Text::new(alloc);
    for request in requests.split(' ') {
        let bytes = bytes_of(alloc, request)?;
        let reply = sessions
            .ask(alloc, session, bytes.as_slice())?
            .ok_or("no request")?;
        replies.extend_from_slice(reply.as_slice())?;
    }
    Ok(replies)
}

/// Makes one step, whose session begins if it has not.
pub(crate) fn check_step(
    rt: &impl Abort,
    alloc: Global,
    sessions: &mut Sessions,
    step: &Step,
) -> Result<(), Fail> {
    let (session, requests, wanted) = *step;
    sessions.begin(alloc, session)?;
    let replies = replies_to(alloc, sessions, session, requests)?;
    assert_eq!(rt;
        replies.as_slice(),
        bytes_of(alloc, wanted)?.as_slice(),
        "at {requests}"
    );
    Ok(())
}

/// Makes the row's steps, and asks all of its requests again at the end.
fn check_row(rt: &impl Abort, alloc: Global, limits: Limits, row: Row) -> Result<(), Fail> {
    let mut sessions = Sessions::new(alloc, limits)?;
    for step in row {
        check_step(rt, alloc, &mut sessions, step)?;
    }
    assert!(rt; sessions.is_folded(alloc)?);
    Ok(())
}

/// The rows, each on a world of its own.
fn check_rows(rt: &impl Abort, alloc: Global, rows: &[Row]) -> Result<(), Fail> {
    for row in rows {
        check_row(rt, alloc, most()?, row)?;
    }
    Ok(())
}

#[test]
fn edits_are_made(rt: HostRuntime) -> Result<(), Fail> {
    check_rows(&rt, rt.alloc(), EDITS)
}

#[test]
fn versions_keep_what_they_show(rt: HostRuntime) -> Result<(), Fail> {
    check_rows(&rt, rt.alloc(), VERSIONS)
}

#[test]
fn links_are_found_and_followed(rt: HostRuntime) -> Result<(), Fail> {
    check_rows(&rt, rt.alloc(), LINKS)
}

#[test]
fn documents_are_opened_and_closed(rt: HostRuntime) -> Result<(), Fail> {
    check_rows(&rt, rt.alloc(), TWO_WRITERS)?;
    check_rows(&rt, rt.alloc(), ACCESS)
}

#[test]
fn private_documents_are_not_shown(rt: HostRuntime) -> Result<(), Fail> {
    check_rows(&rt, rt.alloc(), PRIVATE)
}

#[test]
fn limits_are_kept(rt: HostRuntime) -> Result<(), Fail> {
    for (entries, text, row) in LIMITED {
        check_row(&rt, rt.alloc(), Limits::new(*entries, *text, FLUSH)?, row)?;
    }
    Ok(())
}
