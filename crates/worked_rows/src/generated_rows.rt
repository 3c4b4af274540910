//! The requests that the program makes itself: how they are spelled, and what they are answered.

use crate::sessions::Sessions;
use crate::store_rows::{House, ask, begin, fresh, settles};
use febe_data::{Limits, Memory, Request};
use febe_wire::write_request;
use green_top::generated;
use std::alloc::Global;
use std::process::Abort;
use std::test::Fail;
use tumbler::Text;

/// Requests from the start 7: the account, the eight documents, and the first that are drawn. Another program made these rows
/// from the description of the requests, and the numbers below.
const FIRST: &[&str] = &[
    "34~0.1.1.0.1~",
    "11~11~11~11~11~11~11~11~",
    "27~0.1.1.0.1.0.5~1~0.1.1.0.1.0.5~1~0.1.1~1.4~1~0.1.1.0.1.0.3~1~0.1.1~1.4~0~",
    "0~0.1.1.0.1.0.3~0.1.1~t5:cdefg",
    "0~0.1.1.0.1.0.1~0.1.1~t11:defghijklmn",
    "27~0.1.1.0.1.0.6~1~0.1.1.0.1.0.6~1~0.1.1~1.4~1~0.1.1.0.1.0.4~1~0.1.1~1.4~0~",
    "0~0.1.1.0.1.0.2~0.1.1~t1:f",
    "0~0.1.1.0.1.0.5~0.1.1~t9:ghijklmno",
    "0~0.1.1.0.1.0.2~0.1.2~t12:hijklmnopqrs",
    "12~0.1.1.0.1.0.3~0.1.2~1.9~",
];

/// A start, how many bytes all requests have that are made from it, and the fold of these bytes.
type Whole = (u32, usize, u64);

const WHOLES: &[Whole] = &[
    (0, 77_391, 11_343_870_749_336_807_217),
    (7, 76_851, 18_208_994_689_176_289_024),
    (4_294_967_295, 76_753, 3_523_257_632_494_007_593),
];

/// The fold of the bytes: each counts 31 times as much as the one behind it.
pub(crate) fn folded(bytes: &[u8]) -> u64 {
    let mut sum: u64 = 0;
    for byte in bytes {
        sum = sum.wrapping_mul(31).wrapping_add(u64::from(*byte));
    }
    sum
}

/// All requests from the start, one behind the other.
pub(crate) fn spelled(alloc: Global, start: u32) -> Result<Text, Memory> {
    let requests = generated(alloc, start)?;
    let mut bytes = Text::new(alloc);
    for request in requests.as_slice() {
        let spelling = write_request(alloc, request)?;
        bytes.extend_from_slice(spelling.as_slice())?;
    }
    Ok(bytes)
}

#[test]
fn generated_requests_begin_as_elsewhere(rt: HostRuntime) -> Result<(), Fail> {
    let bytes = spelled(rt.alloc(), 7)?;
    let mut rest = bytes.as_slice();
    for row in FIRST {
        assert!(rt; rest.starts_with(row.as_bytes()), "at {row}");
        rest = rest.split_at(row.len()).1;
    }
    Ok(())
}

#[test]
fn generated_requests_are_as_elsewhere(rt: HostRuntime) -> Result<(), Fail> {
    for (start, long, sum) in WHOLES {
        let bytes = spelled(rt.alloc(), *start)?;
        assert_eq!(rt; bytes.len(), *long, "at {start}");
        assert_eq!(rt; folded(bytes.as_slice()), *sum, "at {start}");
    }
    Ok(())
}

/// Two histories of one session: one that builds a flat world, and one of a store over a disk.
struct Both {
    flat: Sessions,
    house: House,
}

/// By hand, so that a caller's exits do not look into the fields.
impl Drop for Both {
    fn drop(self) {
        let Both { flat: _, house: _ } = self;
    }
}

impl Both {
    fn new(rt: &impl Abort, alloc: Global) -> Result<Both, Fail> {
        let limits = Limits::new(4_194_304, 1_073_741_824, 256)?;
        let mut flat = Sessions::new(alloc, limits)?;
        flat.begin(alloc, 1)?;
        let mut house = fresh(alloc)?;
        assert_eq!(rt; begin(alloc, &mut house), Some(1));
        Ok(Both { flat, house })
    }

    /// Both answer the same, and it is no refusal.
    fn check(&mut self, rt: &impl Abort, alloc: Global, request: &Request) -> Result<(), Fail> {
        let wanted = self.flat.answer(alloc, 1, request.try_clone(alloc)?)?;
        let told = ask(alloc, &mut self.house, 1, request.try_clone(alloc)?)?;
        assert_eq!(rt; told.as_slice(), wanted.as_slice());
        assert!(rt; !told.as_slice().starts_with(b"?"));
        Ok(())
    }
}

#[test]
fn generated_requests_are_answered_alike(rt: HostRuntime) -> Result<(), Fail> {
    let alloc = rt.alloc();
    let requests = generated(alloc, 7)?;
    let mut both = Both::new(&rt, alloc)?;
    for request in requests.as_slice() {
        both.check(&rt, alloc, request)?;
    }
    assert!(rt; settles(alloc, &mut both.house));
    Ok(())
}
