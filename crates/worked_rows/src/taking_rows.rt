//! What is taken from a source and put to a sink, one call after the other.

use crate::runs::{sink_of, source_of};
use febe_data::Reply;
use febe_feed::Feed;
use green_fakes::MemorySource;
use green_io::Source;
use green_session::{Put, Taken, Turns, put_bytes, put_reply, take_request};
use std::alloc::Global;
use std::process::Abort;
use std::test::Fail;
use tumbler::{Memory, Text};

/// What an answer is, with no request, and the place that it names.
#[derive(Clone, Copy, Debug, PartialEq, Eq)]
enum Answer {
    Greeting,
    Request,
    End,
    Malformed(u64),
    Truncated(u64),
    ReadFault,
    Memory,
    Budget,
}

fn answer_of(taken: &Taken) -> Answer {
    match taken {
        Taken::Greeting => Answer::Greeting,
        Taken::Request(_) => Answer::Request,
        Taken::End => Answer::End,
        Taken::Malformed { at } => Answer::Malformed(*at),
        Taken::Truncated { at } => Answer::Truncated(*at),
        Taken::ReadFault => Answer::ReadFault,
        Taken::Memory => Answer::Memory,
        Taken::Budget => Answer::Budget,
    }
}

/// An input, how many bytes a read gives at most (0 for no bound), the reads that fail, how many bytes may be taken, the
/// answers, and how many bytes were taken then.
type Taking = (
    &'static str,
    u32,
    &'static [u64],
    u64,
    &'static [Answer],
    u64,
);

const TAKINGS: &[Taking] = &[
    ("", 1, &[], 100, &[Answer::End], 0),
    ("P0", 1, &[], 100, &[Answer::Truncated(2)], 2),
    ("P0~", 1, &[], 100, &[Answer::Greeting, Answer::End], 3),
    (
        "P0~11~1",
        1,
        &[],
        100,
        &[Answer::Greeting, Answer::Request, Answer::Truncated(7)],
        7,
    ),
    (
        "P0~11~6",
        1,
        &[],
        100,
        &[Answer::Greeting, Answer::Request, Answer::Malformed(6)],
        7,
    ),
    // a 4 may go on as 40
    (
        "P0~11~4",
        1,
        &[],
        100,
        &[Answer::Greeting, Answer::Request, Answer::Truncated(7)],
        7,
    ),
    (
        "P0~11~4~",
        1,
        &[],
        100,
        &[Answer::Greeting, Answer::Request, Answer::Malformed(7)],
        8,
    ),
    (
        "P0~34~0.1.1.0.1~",
        1,
        &[],
        4,
        &[Answer::Greeting, Answer::Budget],
        4,
    ),
    (
        "P0~11~",
        1,
        &[],
        6,
        &[Answer::Greeting, Answer::Request, Answer::Budget],
        6,
    ),
    (
        "P0~11~",
        1,
        &[4],
        100,
        &[
            Answer::Greeting,
            Answer::ReadFault,
            Answer::Request,
            Answer::End,
        ],
        6,
    ),
    // a last read takes more than the limit
    (
        "P0~11~",
        0,
        &[],
        1,
        &[Answer::Greeting, Answer::Request, Answer::Budget],
        6,
    ),
];

/// A source of the row's input.
fn source_of_row(alloc: Global, row: &Taking) -> Result<MemorySource, Memory> {
    let (input, piece, failing, _, _, _) = *row;
    let piece = match piece {
        0 => None,
        piece => Some(piece),
    };
    source_of(
        alloc,
        Text::from_slice(alloc, input.as_bytes())?,
        piece,
        failing,
    )
}

/// Takes as often as there are answers, and tells how many bytes were taken.
fn check_answers(
    rt: &impl Abort,
    alloc: Global,
    source: &mut impl Source,
    limit: u64,
    wanted: &[Answer],
) -> u64 {
    let mut feed = Feed::new(alloc);
    let mut turns = Turns::new(limit);
    for answer in wanted {
        let taken = take_request(alloc, source, &mut feed, &mut turns);
        assert_eq!(rt; answer_of(&taken), *answer);
    }
    turns.taken()
}

fn check_taking(rt: &impl Abort, alloc: Global, row: &Taking) -> Result<(), Fail> {
    let (input, _, failing, limit, wanted, count) = *row;
    let mut source = source_of_row(alloc, row)?;
    let taken = check_answers(rt, alloc, &mut source, limit, wanted);
    assert_eq!(rt; taken, count, "at {input}");
    assert_eq!(rt; source.faults(), failing.len() as u64, "at {input}");
    Ok(())
}

#[test]
fn what_is_taken(rt: HostRuntime) -> Result<(), Fail> {
    for row in TAKINGS {
        check_taking(&rt, rt.alloc(), row)?;
    }
    Ok(())
}

#[test]
fn what_is_put(rt: HostRuntime) -> Result<(), Fail> {
    let alloc = rt.alloc();
    let mut sink = sink_of(alloc, &[3])?;
    assert_eq!(rt; put_bytes(&mut sink, b"P0~"), Put::Done);
    assert_eq!(rt; put_reply(alloc, &mut sink, &Reply::Inserted), Put::Done);
    assert_eq!(rt; put_reply(alloc, &mut sink, &Reply::Quit), Put::WriteFault);
    assert_eq!(rt; put_bytes(&mut sink, b""), Put::Done);
    assert_eq!(rt; sink.bytes(), b"P0~0~".as_slice());
    Ok(())
}
