//! What is kept of a stream that was saved.
ghost use Rattle.std.specs.Prelude.{◌≡◌, ◌-◌, ◌*◌, drop, IfOk};
ghost use Rattle.page_chains.specs.Reading.{plain_chain};
ghost use Rattle.page_flush.specs.FlushView.{IsKept, plain_stream};

use febe_data::{List, Memory, Text};
use page_chains::Chain;
use std::alloc::Global;

/// How many bytes of a stream a page has.
pub(crate) const BODY_BYTES: usize = 4088;

/// What is kept of a stream that was saved, so that the next save may go on from its last page.
#[derive(Drop)]
pub(crate) struct KeptStream {
    /// The numbers of its pages, in their order.
    pub(crate) numbers: List<u64>,
    /// How many bytes it has.
    pub(crate) count: u64,
    /// Those that its last page has.
    pub(crate) last: Text,
}

/// What the last of so many pages has of the bytes that they spell.
pub(crate) fn last_page(alloc: Global, pages: usize, bytes: &[u8]) -> Result<Text, Memory>
    ensures { IfOk result (λ last. last.items ≡ drop (4088 * (pages - 1)) bytes.now) }
{
    let at = pages.saturating_sub(1).saturating_mul(BODY_BYTES);
    Text::from_slice(alloc, bytes.split_at(at.min(bytes.len())).1)
}

impl KeptStream {
    /// What is kept of the stream of a chain.
    pub(crate) fn of_chain(alloc: Global, chain: &Chain) -> Result<KeptStream, Memory>
        ensures { IfOk result (λ stream. IsKept (plain_stream stream) (plain_chain chain.now)) }
    {
        let bytes = chain.bytes.as_slice();
        let numbers = List::from_slice(alloc, chain.numbers.as_slice())?;
        let last = last_page(alloc, numbers.len(), bytes)?;
        Ok(KeptStream {
            numbers,
            count: bytes.len() as u64,
            last,
        })
    }
}
