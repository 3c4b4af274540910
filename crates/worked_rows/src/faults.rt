//! Runs that words, a source or a sink end.

use crate::runs::{
    Figures, HELLO, HELLO_ANSWERED, Kind, Mark, RESTART, Ran, WORDS, run, run_words, sink_of,
    source_of,
};
use crate::sessions::{bytes_of, push_row};
use green_io::{ReadAnswer, Source};
use std::alloc::Global;
use std::process::Abort;
use std::test::Fail;
use tumbler::{Memory, Text};

/// Words that are no form of the program.
const WRONG: &[&[&str]] = &[
    &["green_batch"],
    &["green_batch", "-x"],
    &["green_batch", ""],
    &["green_batch", ".", "."],
    &["green_batch", "work", "--limits", "3", "100", "0"],
    &["green_batch", "work", "--limits", "03", "100", "256"],
    &["green_batch", "work", "--limits", "+3", "100", "256"],
    &["green_batch", "work", "--limits", "4194305", "100", "256"],
    &["green_batch", "work", "--limits", "3", "1073741825", "256"],
    &["green_batch", "work", "--limits", "3", "100", "4194305"],
    &["green_batch", "work", "--limits", "3", "100", "4294967552"],
    &["green_batch", "work", "--limits", "3", "100"],
    &["green_batch", "work", "--limit", "3", "100", "256"],
    &["green_batch", "work", "--generate"],
    &["green_batch", "work", "--generate", "07"],
    &["green_batch", "work", "--generate", "-1"],
    &["green_batch", "work", "--generate", "4294967296"],
    &["green_batch", "work", "--generate", "7", "7"],
];

const NOTHING_DONE: Figures = Figures {
    status: 2,
    opened: 0,
    bytes_read: 0,
    place: 0,
};

/// What a read of up to eight bytes gives.
fn next_read(source: &mut impl Source) -> ReadAnswer {
    let mut piece = [0; 8];
    source.read(&mut piece)
}

fn check_nothing_told(rt: &impl Abort, words: &[&str], ran: &Ran) {
    assert_eq!(rt; ran.figures(), NOTHING_DONE, "at {words:?}");
    assert!(rt; ran.written().is_empty(), "at {words:?}");
    assert!(rt; ran.report.history.is_empty(), "at {words:?}");
    assert!(rt; ran.points().is_empty(), "at {words:?}");
}

fn check_wrong(rt: &impl Abort, alloc: Global, words: &[&str]) -> Result<(), Fail> {
    let mut ran = run_words(alloc, words, bytes_of(alloc, "P0~16~")?, None)?;
    check_nothing_told(rt, words, &ran);
    assert_eq!(rt;
        next_read(&mut ran.source),
        ReadAnswer::Got(6),
        "at {words:?}"
    );
    Ok(())
}

#[test]
fn wrong_words_read_and_write_nothing(rt: HostRuntime) -> Result<(), Fail> {
    for words in WRONG {
        check_wrong(&rt, rt.alloc(), *words)?;
    }
    Ok(())
}

/// Words whose three numbers are limits, and the input and the output of a run under them.
type Limited = (&'static [&'static str], &'static str, &'static str);

const LIMITED: &[Limited] = &[
    (
        &["green_batch", ".", "--limits", "3", "100", "256"],
        "P0~ 34~0.1.1.0.1~ 11~ 0~A~0.1.1~t1:x 0~A~0.1.1~t1:x 0~A~0.1.1~t1:x 5~1~A~1~0.1.1~1.5~ 16~",
        "P0~ 34~ 11~A~ 0~ 0~ ?12~ 5~1~t2:xx 16~",
    ),
    (
        &["green_batch", ".", "--limits", "10", "5", "256"],
        "P0~ 34~0.1.1.0.1~ 11~ 0~A~0.1.1~t5:hello 0~A~0.1.1~t1:x 0~A~0.1.1~t0:",
        "P0~ 34~ 11~A~ 0~ ?12~ 0~",
    ),
];

fn check_limited(rt: &impl Abort, alloc: Global, row: &Limited) -> Result<(), Fail> {
    let (words, input, output) = *row;
    let wanted = bytes_of(alloc, output)?;
    let ran = run_words(alloc, words, bytes_of(alloc, input)?, None)?;
    assert_eq!(rt; ran.status, 0, "at {input}");
    assert_eq!(rt; ran.written(), wanted.as_slice(), "at {input}");
    Ok(())
}

#[test]
fn limits_are_those_of_the_words(rt: HostRuntime) -> Result<(), Fail> {
    for row in LIMITED {
        check_limited(&rt, rt.alloc(), row)?;
    }
    Ok(())
}

/// Runs a session whose reads and writes fail where their numbers are listed.
fn run_hello(
    alloc: Global,
    piece: Option<u32>,
    reads: &[u64],
    writes: &[u64],
) -> Result<Ran, Fail> {
    let source = source_of(alloc, bytes_of(alloc, HELLO)?, piece, reads)?;
    let sink = sink_of(alloc, writes)?;
    Ok(run(alloc, WORDS, source, sink)?)
}

#[test]
fn a_source_fails_before_the_greeting(rt: HostRuntime) -> Result<(), Fail> {
    let ran = run_hello(rt.alloc(), Some(3), &[1], &[])?;
    assert_eq!(rt; ran.status, 5);
    assert!(rt; ran.written().is_empty());
    let marks = ran.marks(rt.alloc())?;
    assert_eq!(rt; marks.as_slice(), [RESTART].as_slice());
    Ok(())
}

#[test]
fn a_source_fails_behind_the_greeting(rt: HostRuntime) -> Result<(), Fail> {
    let ran = run_hello(rt.alloc(), Some(3), &[2], &[])?;
    assert_eq!(rt; ran.status, 5);
    assert_eq!(rt; ran.written(), b"P0~".as_slice());
    assert_eq!(rt; ran.report.bytes_read, 3);
    Ok(())
}

#[test]
fn a_sink_fails_at_once(rt: HostRuntime) -> Result<(), Fail> {
    let ran = run_hello(rt.alloc(), None, &[], &[1])?;
    assert_eq!(rt; ran.status, 6);
    assert!(rt; ran.written().is_empty());
    Ok(())
}

/// The last entry of the history.
fn last_mark(alloc: Global, ran: &Ran) -> Result<Mark, Fail> {
    let marks = ran.marks(alloc)?;
    Ok(*marks.last().ok_or("no entry")?)
}

fn check_front(rt: &impl Abort, ran: &Ran, whole: &[u8]) {
    let written = ran.written();
    assert!(rt; whole.starts_with(written));
    assert_ne!(rt; written.len(), whole.len());
}

fn check_midway(rt: &impl Abort, alloc: Global, failing: u64) -> Result<(), Fail> {
    let whole = bytes_of(alloc, HELLO_ANSWERED)?;
    let ran = run_hello(alloc, None, &[], &[failing])?;
    assert_eq!(rt; ran.status, 6, "at {failing}");
    check_front(rt, &ran, whole.as_slice());
    let (kind, session, _) = last_mark(alloc, &ran)?;
    assert_eq!(rt; kind, Kind::End, "at {failing}");
    assert_eq!(rt; session, 1, "at {failing}");
    Ok(())
}

#[test]
fn a_sink_fails_midway(rt: HostRuntime) -> Result<(), Fail> {
    for failing in [2, 3, 4, 5] {
        check_midway(&rt, rt.alloc(), failing)?;
    }
    Ok(())
}

const LONG_TEXT: usize = 65_536;

/// What has a text of that length between a front and a rest.
fn around_long_text(alloc: Global, front: &str, rest: &str) -> Result<Text, Memory> {
    let mut bytes = bytes_of(alloc, front)?;
    for _ in 0..LONG_TEXT {
        bytes.push(b'x')?;
    }
    push_row(&mut bytes, rest)?;
    Ok(bytes)
}

/// A session that puts a long text in a document and retrieves it, of which writes fail where their numbers are listed.
fn run_long(alloc: Global, failing: &[u64]) -> Result<Ran, Fail> {
    let asked = around_long_text(
        alloc,
        "P0~ 34~0.1.1.0.1~ 11~ 0~A~0.1.1~t65536:",
        "5~1~A~1~0.1.1~1.65536~ 16~",
    )?;
    let source = source_of(alloc, asked, None, &[])?;
    let sink = sink_of(alloc, failing)?;
    Ok(run(alloc, WORDS, source, sink)?)
}

/// The text is not copied to be written: a write of its own gives it.
const BEFORE_LONG_TEXT: &str = "P0~ 34~ 11~A~ 0~ 5~1~t65536:";

#[test]
fn a_long_text_is_given_whole(rt: HostRuntime) -> Result<(), Fail> {
    let alloc = rt.alloc();
    let told = around_long_text(alloc, BEFORE_LONG_TEXT, "16~")?;
    let ran = run_long(alloc, &[])?;
    assert_eq!(rt; ran.status, 0);
    assert!(rt; ran.written() == told.as_slice());
    Ok(())
}

#[test]
fn a_sink_fails_before_a_long_text(rt: HostRuntime) -> Result<(), Fail> {
    let alloc = rt.alloc();
    let front = bytes_of(alloc, BEFORE_LONG_TEXT)?;
    let ran = run_long(alloc, &[6])?;
    assert_eq!(rt; ran.status, 6);
    assert!(rt; ran.written() == front.as_slice());
    Ok(())
}
