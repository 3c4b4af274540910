//! Chains as they were read.
ghost use Rattle.std.specs.Prelude.{◌≡◌, []};

use febe_data::{List, Text};
use std::alloc::Global;

/// A chain of pages, and the stream of bytes that it spells.
#[derive(Drop)]
pub struct Chain {
    /// The numbers of its pages, in their order.
    pub numbers: List<u64>,
    /// The stream.
    pub bytes: Text,
}

impl Chain {
    /// A chain without pages.
    pub(crate) fn new(alloc: Global) -> Chain
        ensures numbers { result.numbers.items ≡ [] }
        ensures bytes { result.bytes.items ≡ [] }
    {
        Chain {
            numbers: List::new(alloc),
            bytes: Text::new(alloc),
        }
    }
}
