//! Pages that are handed over to be written.

use febe_data::Text;

/// A page that is to be written.
#[derive(Drop)]
pub struct PageWrite {
    /// The number of the page, counted from 0. It is below 2^40.
    pub number: u64,
    /// The new bytes of the page, all 4,096 of them.
    pub bytes: Text,
}
