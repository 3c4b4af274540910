//! The bounds that several crates share. Each stands once: those of addresses in the crate of addresses, all others here.

pub use tumbler::{MOST_DOCUMENT_PLACES, MOST_PLACES};

/// The most bytes of one text, in a request and in an item of a reply.
pub const MOST_TEXT_BYTES: u32 = 16_777_216;

/// The most items of one list, the most spans in a spec set, and the most runs that one request may work on.
pub const MOST_ITEMS: u32 = 65_536;

/// The greatest number of kept entries that limits may allow.
pub const MOST_ENTRIES: u32 = 4_194_304;

/// The greatest number of content bytes that limits may allow.
pub const MOST_CONTENT: u32 = 1_073_741_824;

/// The greatest number of kept entries after which pages are written.
pub const MOST_FLUSH: u32 = 4_194_304;

/// The most text positions of one document.
pub const MOST_POSITIONS: u32 = 1_073_741_824;
