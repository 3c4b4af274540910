//! Streams in pieces of any size, and the places of wrong bytes in them.
ghost use Rattle.std.specs.Prelude.{◌≡◌, IfOk};

use febe_data::{List, Text};
use febe_feed::{Feed, Next};
use febe_wire::write_request;
use std::alloc::Global;
use std::test::Fail;

/// Adds what the feed gives, spelled again, and tells a place where the bytes are bad.
fn take_all(
    alloc: Global,
    feed: &mut Feed,
    most: usize,
    given: &mut Text,
) -> Result<Option<u64>, Fail> {
    for _ in 0..most {
        match feed.next(alloc)? {
            Next::Greeting => given.extend_from_slice(b"P0~")?,
            Next::Request(request) => {
                given.extend_from_slice(write_request(alloc, &request)?.as_slice())?;
            }
            Next::NotYet => return Ok(None),
            Next::Bad { at } => return Ok(Some(at)),
        }
    }
    Ok(None)
}

/// Feeds the bytes in pieces of this size, and adds what comes. Stops at the first place that is bad.
fn feed_in_pieces(
    alloc: Global,
    feed: &mut Feed,
    bytes: &[u8],
    size: usize,
    given: &mut Text,
) -> Result<Option<u64>, Fail> {
    let mut rest = bytes;
    // Each piece has a byte, so there are no more pieces than bytes.
    for _ in 0..bytes.len() {
        let (piece, behind) = rest.split_at(rest.len().min(size.max(1)));
        feed.push(alloc, piece)?;
        if let Some(at) = take_all(alloc, feed, bytes.len(), given)? {
            return Ok(Some(at));
        }
        rest = behind;
    }
    Ok(None)
}

#[test]
fn places_of_wrong_bytes(rt: HostRuntime) -> Result<(), Fail> {
    let alloc = rt.alloc();
    for (input, wanted) in [
        ("P0~007~", Some(4)),
        ("P0~4~", Some(4)),
        ("P0~6~", Some(3)),
        ("P1~", Some(1)),
        ("Q", Some(0)),
        ("P0P", Some(2)),
        ("P0~34~0.1.0~", Some(11)),
        (
            "P0~34~0.1.1.0.1~11~0~0.1.1.0.1.0.1~0.1.1~t2:abc16~",
            Some(46),
        ),
        ("P0~34~0.1.1.0.1~11~16~x", Some(22)),
        ("P0~34~0.1.1.0.1~11~16~1", None),
    ] {
        for size in [1, 2, 5, 100] {
            let mut feed = Feed::new(alloc);
            let mut given = List::new(alloc);
            let at = feed_in_pieces(alloc, &mut feed, input.as_bytes(), size, &mut given)?;
            assert_eq!(rt; at, wanted, "at {input} in pieces of {size}");
            // More bytes change nothing, and the place is told again.
            feed.push(alloc, b"16~")?;
            if at.is_some() {
                let again = take_all(alloc, &mut feed, 1, &mut given)?;
                assert_eq!(rt; again, wanted, "again at {input}");
            }
        }
    }
    Ok(())
}

const REQUESTS: [&str; 6] = [
    "0~0.1.1.0.1.0.1~0.1.1~t7:16~P0~x",
    "11~",
    "5~2~0.1.1.0.1.0.1~1~0.1.1~1.5~0.1~0~",
    "35~0.1.1.0.1.0.1~2~3~",
    "31~1~0~0.1~0~0~1~0.1~0~2.7~4294967295~",
    "40~0.1.1.0.1.0.1~",
];

/// A greeting and so many requests.
fn stream_of(alloc: Global, count: usize) -> Result<Text, Fail> {
    let mut stream = List::from_slice(alloc, b"P0~")?;
    for k in 0..count {
        stream.extend_from_slice(REQUESTS[k % 6].as_bytes())?;
    }
    Ok(stream)
}

#[test]
fn a_thousand_requests_in_pieces_of_any_size(rt: HostRuntime) -> Result<(), Fail> {
    let alloc = rt.alloc();
    let stream = stream_of(alloc, 1000)?;
    for size in [1, 2, 3, 7, 4096, 1_000_000] {
        let mut feed = Feed::new(alloc);
        let mut given = List::new(alloc);
        let at = feed_in_pieces(alloc, &mut feed, stream.as_slice(), size, &mut given)?;
        assert_eq!(rt; at, None, "in pieces of {size}");
        assert_eq!(rt; feed.held(), 0, "in pieces of {size}");
        assert_eq!(rt; feed.end(), stream.len() as u64, "in pieces of {size}");
        assert_eq!(rt; given.as_slice(), stream.as_slice(), "in pieces of {size}");
    }
    Ok(())
}
