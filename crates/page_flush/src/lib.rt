//! What pages hold of seven streams, and saves of these streams under a crash.
#![tactic(auto)]

mod blank;
mod choosing;
mod flush;
mod header;
mod kept_stream;
pub mod laws;
mod preparing;
mod spared;
mod spelling;
mod stream_bytes;

pub use flush::PageFlush;
pub use stream_bytes::StreamBytes;
