//! An entry and its moment.

use febe_data::Entry;

/// An entry as it is logged.
#[derive(Debug, Drop)]
pub struct Logged {
    pub entry: Entry,
    /// When it was made, in milliseconds since the year 1970 began. 0 where the log did not tell.
    pub moment: u64,
}
