//! The tables' requests, as whole sessions of the program.

use crate::runs::run_bytes;
use crate::sessions::push_row;
use crate::tables::{ACCESS, EDITS, LINKS, Row, VERSIONS};
use std::alloc::Global;
use std::process::Abort;
use std::test::Fail;
use tumbler::{Memory, Text};

/// The input of a session that makes the row's requests.
fn input_of(alloc: Global, row: Row) -> Result<Text, Memory> {
    let mut bytes = Text::from_slice(alloc, b"P0~")?;
    for (_, requests, _) in row {
        push_row(&mut bytes, requests)?;
    }
    Ok(bytes)
}

/// The output of a session that is answered the row's replies.
fn output_of(alloc: Global, row: Row) -> Result<Text, Memory> {
    let mut bytes = Text::from_slice(alloc, b"P0~")?;
    for (_, _, replies) in row {
        push_row(&mut bytes, replies)?;
    }
    Ok(bytes)
}

fn check_piece(rt: &impl Abort, alloc: Global, row: Row, piece: Option<u32>) -> Result<(), Fail> {
    let wanted = output_of(alloc, row)?;
    let ran = run_bytes(alloc, input_of(alloc, row)?, piece)?;
    assert_eq!(rt; ran.status, 0);
    assert_eq!(rt; ran.written(), wanted.as_slice());
    Ok(())
}

/// Runs each row on a source that gives all at once and on one that gives a byte at a time.
fn check_rows(rt: &impl Abort, alloc: Global, rows: &[Row]) -> Result<(), Fail> {
    for row in rows {
        check_piece(rt, alloc, *row, None)?;
        check_piece(rt, alloc, *row, Some(1))?;
    }
    Ok(())
}

#[test]
fn rows_of_one_session_are_runs(rt: HostRuntime) -> Result<(), Fail> {
    for rows in [EDITS, VERSIONS, LINKS, ACCESS] {
        check_rows(&rt, rt.alloc(), rows)?;
    }
    Ok(())
}
