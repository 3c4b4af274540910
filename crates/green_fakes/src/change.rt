//! What the calls of a disk have done to its areas.

use febe_data::Text;
use green_io::Area;

/// What a call has done to an area.
#[derive(Drop)]
pub(crate) enum Step {
    /// It has written these bytes.
    Write { at: u64, bytes: Text },
    /// It has failed to write so many bytes. The area reads as before.
    FailedWrite { at: u64, count: usize },
    /// It has cut the area to this length.
    Cut { length: u64 },
    /// It has failed to cut the area. The area reads as before.
    FailedCut { length: u64 },
    /// It has made the area stable.
    Sync,
}

/// What one call has done.
#[derive(Drop)]
pub(crate) struct Change {
    /// How many calls came before it.
    pub(crate) before: u64,
    pub(crate) area: Area,
    pub(crate) step: Step,
}
