//! The record of the pages that a commit is given.
ghost use Rattle.std.specs.Prelude.{◌≡◌, ◌≤◌, length, IfOk};
ghost use Rattle.page_journal.specs.JournalBytes.{AreWrites, record_of, writes_of};

use crate::page_write::PageWrite;
use crate::records::ENTRY_BYTES;
use febe_data::{List, Memory, Text};
use std::alloc::Global;

/// Spells the record of these pages, and takes all its memory at once.
pub(crate) fn spell(alloc: Global, pages: &[PageWrite]) -> Result<Text, Memory>
    requires { length pages.now ≤ 1024 }
    ensures { IfOk result (λ kept. kept.items ≡ record_of (writes_of pages.now)) }
{
    let mut kept = List::new(alloc);
    kept.reserve(4 + pages.len() * ENTRY_BYTES)?;
    let count = pages.len() as u32;
    kept.extend_from_slice(&count.to_be_bytes())?;
    for page in pages {
        kept.extend_from_slice(&page.number.to_be_bytes())?;
        kept.extend_from_slice(page.bytes.as_slice())?;
    }
    Ok(kept)
}
