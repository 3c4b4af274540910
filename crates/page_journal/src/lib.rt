//! Pages of 4,096 bytes on a disk, which are written all or none, whatever a crash leaves.
#![tactic(auto)]

mod courses;
mod journal;
pub mod laws;
mod opening;
mod page_fault;
mod page_write;
mod phases;
mod reading;
mod records;
mod spelling;
mod stage;

pub use journal::PageJournal;
pub use page_fault::PageFault;
pub use page_write::PageWrite;
