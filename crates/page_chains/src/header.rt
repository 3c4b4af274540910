//! Headers as they were read.

use crate::chain::Chain;
use febe_data::List;

/// A header with its chains.
#[derive(Drop)]
pub struct Header {
    /// The position for which the streams stand.
    pub position: u64,
    /// The seven chains, in the order in which the header names them.
    pub chains: List<Chain>,
}
