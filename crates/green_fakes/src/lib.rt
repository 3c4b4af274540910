//! A source, a sink and a disk that lie in memory, tell everything, and fail at the calls that are listed. And a clock
//! that tells its answers.
#![tactic(auto)]

mod area_bytes;
mod area_set;
mod change;
mod crash;
mod disk;
pub mod laws;
mod memory_clock;
mod replay;
mod sink;
mod source;
mod turn;

pub use disk::MemoryDisk;
pub use memory_clock::MemoryClock;
pub use sink::MemorySink;
pub use source::MemorySource;
