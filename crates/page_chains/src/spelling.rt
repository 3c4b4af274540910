//! The pages that spell a header and its chains.
ghost use Rattle.std.specs.Prelude.{◌≡◌, ◌-◌, ◌≤◌, ◌++◌, length, replicate, IfOk, OnOk};
ghost use Rattle.page_journal.specs.JournalBytes.{write_of, writes_of};
ghost use Rattle.page_journal.specs.Pages.{page_bytes};
ghost use Rattle.page_chains.specs.Spelled.{first_page, link_page, chain_writes, start_bytes, header_page};
ghost use Rattle.page_chains.specs.Headers.{header_mark};
ghost use Rattle.std.specs.Int.{w64, to_be_bytes};

use crate::start::{CHAINS, Start};
use febe_data::{List, Memory, Text};
use page_journal::PageWrite;
use std::alloc::Global;

/// How many bytes a page has.
const PAGE_BYTES: usize = 4096;

/// How many bytes of a stream a page has.
const BODY_BYTES: usize = 4088;

/// The first bytes of a header: `GREENPG1`.
pub(crate) const MARK: [u8; 8] = [71, 82, 69, 69, 78, 80, 71, 49];

/// Fills the page up with zeros.
fn pad(page: &mut Text) -> Result<(), Memory>
    ensures { OnOk result (page.new.items ≡ page.old.items ++ replicate (4096 - length page.old.items) 0) }
{
    let count = PAGE_BYTES.saturating_sub(page.len());
    page.reserve(count)?;
    for _ in 0..count {
        page.push_reserved(0);
    }
    Ok(())
}

/// A page of a chain, with the number of the next one.
fn spell_link(alloc: Global, number: u64, next: u64, body: &[u8]) -> Result<PageWrite, Memory>
    requires { length body.now ≤ 4088 }
    ensures { IfOk result (λ page. write_of page ≡ page_bytes number (link_page next body.now)) }
{
    let mut bytes = Text::new(alloc);
    bytes.reserve(PAGE_BYTES)?;
    bytes.extend_from_slice(&next.to_be_bytes())?;
    bytes.extend_from_slice(body)?;
    pad(&mut bytes)?;
    Ok(PageWrite { number, bytes })
}

/// The first of these pages, 0 where there is none.
fn first_page(numbers: &[u64]) -> u64
    ensures { result ≡ first_page numbers.now }
{
    match numbers.first() {
        Some(number) => *number,
        None => 0,
    }
}

/// Adds the pages of these numbers, as a chain that spells the stream. They take 4,096 bytes each.
///
/// The stream needs a page for each 4,088 bytes. Where fewer numbers are given its end is left out, and where more are
/// their pages have zeros.
pub fn spell_chain(
    alloc: Global,
    numbers: &[u64],
    bytes: &[u8],
    pages: &mut List<PageWrite>,
) -> Result<(), Memory>
    ensures { OnOk result (writes_of pages.new.items ≡ writes_of pages.old.items ++ chain_writes numbers.now bytes.now) }
{
    pages.reserve(numbers.len())?;
    let mut left = numbers;
    let mut rest = bytes;
    while let Some((number, behind)) = left.split_first() {
        let (body, more) = rest.split_at(BODY_BYTES.min(rest.len()));
        let page = spell_link(alloc, *number, first_page(behind), body)?;
        pages.push_reserved(page);
        left = behind;
        rest = more;
    }
    Ok(())
}

/// What a header has in front of its starts.
fn spell_front(alloc: Global, position: u64, used: u64) -> Result<Text, Memory>
    ensures { IfOk result (λ page. page.items ≡ header_mark ++ to_be_bytes w64 position ++ to_be_bytes w64 used) }
{
    let mut page = Text::new(alloc);
    page.reserve(PAGE_BYTES)?;
    page.extend_from_slice(&MARK)?;
    page.extend_from_slice(&position.to_be_bytes())?;
    page.extend_from_slice(&used.to_be_bytes())?;
    Ok(page)
}

/// Puts what names a chain behind the bytes.
fn put_start(page: &mut Text, start: &Start) -> Result<(), Memory>
    ensures { OnOk result (page.new.items ≡ page.old.items ++ start_bytes start.now) }
{
    page.extend_from_slice(&start.first.to_be_bytes())?;
    page.extend_from_slice(&start.count.to_be_bytes())?;
    Ok(())
}

/// The page of a header at this position, which says how many pages are in use and where its chains begin.
pub fn spell_header(
    alloc: Global,
    position: u64,
    used: u64,
    starts: &[Start; CHAINS],
) -> Result<Text, Memory>
    ensures page { IfOk result (λ page. page.items ≡ header_page position used starts.now) }
    ensures whole { IfOk result (λ page. length page.items ≡ 4096) }
{
    let mut page = spell_front(alloc, position, used)?;
    for start in starts {
        put_start(&mut page, start)?;
    }
    pad(&mut page)?;
    Ok(page)
}
