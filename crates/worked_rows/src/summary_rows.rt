//! Sessions that the program makes itself: the summary that it writes of them, and what ends them.

use crate::disk_rows::disk_failing;
use crate::generated_rows::{folded, spelled};
use crate::runs::{Ran, run_bytes, run_over, sink_of, source_of};
use std::alloc::Global;
use std::process::Abort;
use std::test::Fail;
use tumbler::Text;

const START: &[&str] = &["green_batch", ".", "--generate", "7"];

/// What another program, which was written from the description of the requests, told of the same start.
const SUMMARY: &str = "start 7\nrequests 2010\nrefused 0\ndocuments 48\nbytes 8346\nlinks 80\n\
    replies 14791272822984569365\n";

/// The fold of the replies in that summary.
pub(crate) const REPLIES: u64 = 14_791_272_822_984_569_365;

/// Runs the start 7 over an empty disk. A write to the sink fails where its number is listed.
fn run_generated(alloc: Global, writes: &[u64]) -> Result<Ran, Fail> {
    let source = source_of(alloc, Text::from_slice(alloc, b"P0~16~")?, None, &[])?;
    let sink = sink_of(alloc, writes)?;
    Ok(run_over(alloc, START, source, sink, disk_failing(alloc, &[])?)?)
}

/// The run read nothing, and its history is the restart, the session's begin and end, and what it asked.
fn check_generated(rt: &impl Abort, ran: &Ran) {
    assert_eq!(rt; ran.status, 0);
    assert_eq!(rt; ran.figures().bytes_read, 0);
    assert_eq!(rt; ran.figures().opened, 1);
    assert_eq!(rt; ran.points().len(), 2_010);
}

#[test]
fn a_start_has_one_summary(rt: HostRuntime) -> Result<(), Fail> {
    for _ in 0..2 {
        let ran = run_generated(rt.alloc(), &[])?;
        check_generated(&rt, &ran);
        assert_eq!(rt; ran.written(), SUMMARY.as_bytes());
    }
    Ok(())
}

/// The greeting, and the requests of the start 7.
fn told_session(alloc: Global) -> Result<Text, Fail> {
    let mut bytes = Text::from_slice(alloc, b"P0~")?;
    bytes.extend_from_slice(spelled(alloc, 7)?.as_slice())?;
    Ok(bytes)
}

#[test]
fn a_summary_folds_what_a_told_session_is_answered(rt: HostRuntime) -> Result<(), Fail> {
    let alloc = rt.alloc();
    let ran = run_bytes(alloc, told_session(alloc)?, None)?;
    assert_eq!(rt; ran.status, 0);
    let written = ran.written();
    assert!(rt; written.starts_with(b"P0~"));
    assert_eq!(rt; folded(written.split_at(3).1), REPLIES);
    Ok(())
}

#[test]
fn a_summary_is_not_written_in_part_unless_the_sink_fails(rt: HostRuntime) -> Result<(), Fail> {
    let ran = run_generated(rt.alloc(), &[1])?;
    assert_eq!(rt; ran.status, 6);
    assert!(rt; ran.written().is_empty());
    Ok(())
}
