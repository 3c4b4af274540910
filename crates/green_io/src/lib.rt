//! Where bytes come from, where they go and where they stay: sources, sinks and disks, and how each counts its faults.
//! And what tells the time.
#![tactic(auto)]

mod clock;
mod disk;
mod folder_disk;
mod folder_files;
pub mod laws;
mod sink;
mod source;
mod stable_cut;
mod stable_write;
mod std_sink;
mod std_source;
mod system_clock;

pub use clock::Clock;
pub use disk::{Area, Disk, DiskFailed};
pub use folder_disk::FolderDisk;
pub use sink::{Sink, WriteAnswer};
pub use source::{ReadAnswer, Source};
pub use stable_cut::cut_and_sync;
pub use stable_write::write_and_sync;
pub use std_sink::StdSink;
pub use std_source::StdSource;
pub use system_clock::SystemClock;
