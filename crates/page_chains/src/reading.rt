//! Reading a header and its chains.
ghost use Rattle.std.specs.Prelude.{◌≡◌, ◌≤◌, IfOk};
ghost use Rattle.green_io.specs.Disk.{LeavesOnly, Nothing, WhereTold};
ghost use Rattle.green_io.specs.Outside.{HasRisen};
ghost use Rattle.page_journal.specs.Answers.{OnDiskFault};
ghost use Rattle.page_journal.specs.Pages.{pages_of};
ghost use Rattle.page_chains.specs.Reading.{IsReadHeader};
ghost use Rattle.page_chains.specs.inside.Walks.{IsMet, IsTaken, IsOnePageOn, IsReadApart, AreReadChains};

use crate::chain::Chain;
use crate::fields::{NUMBERS, split_front, split_number, split_start};
use crate::header::Header;
use crate::met::Met;
use crate::start::{CHAINS, Start};
use febe_data::{List, Memory, Text};
use green_io::Disk;
use page_journal::{PageFault, PageJournal};
use std::alloc::Global;

/// How many bytes of a stream a page has.
const BODY_BYTES: u64 = 4088;

/// Reads the page that a chain names, if a chain may have it and it was not met. It is met then.
fn read_next<D: Disk>(
    journal: &PageJournal,
    disk: &mut D,
    met: &mut Met,
    number: u64,
    page: &mut Text,
) -> Result<bool, PageFault>
    ensures next { IfOk result (λ there. WhereTold (D.state disk.old).reads (λ areas. IsMet there (pages_of areas.home) met.old met.new number page.new.items)) }
    ensures reads { (D.state disk.new).reads ≡ (D.state disk.old).reads }
    ensures crash { LeavesOnly (D.state disk.old) (D.state disk.new) Nothing }
    ensures never_falls { D.fault_count disk.old ≤ D.fault_count disk.new }
    ensures failed { OnDiskFault result (HasRisen (D.fault_count disk.old) (D.fault_count disk.new)) }
{
    if number == 0 {
        return Ok(false);
    }
    if number >= NUMBERS {
        return Ok(false);
    }
    if !met.meet(number)? {
        return Ok(false);
    }
    let there = journal.read(disk, number, page)?;
    Ok(there)
}

/// Takes a page into a chain that has so many bytes left, and gives the number of the page that it names.
fn take_page(chain: &mut Chain, number: u64, left: u64, page: &[u8]) -> Result<Option<u64>, Memory>
    ensures { IfOk result (λ next. IsTaken next chain.old chain.new number left page.now) }
{
    let Some((next, body)) = split_number(page) else {
        return Ok(None);
    };
    let count = left.min(body.len() as u64) as usize;
    chain.numbers.push(number)?;
    chain.bytes.extend_from_slice(body.split_at(count).0)?;
    Ok(Some(next))
}

/// Reads one page more of a chain, and gives the number of the page that it names. There is none where the chain may
/// not have that page.
#[tactic(auto, using(green_io::proofs::Crash::crash_steps))]
fn read_link<D: Disk>(
    journal: &PageJournal,
    disk: &mut D,
    met: &mut Met,
    page: &mut Text,
    chain: &mut Chain,
    number: u64,
    left: u64,
) -> Result<Option<u64>, PageFault>
    ensures link { IfOk result (λ next. WhereTold (D.state disk.old).reads (λ areas. IsOnePageOn next (pages_of areas.home) met.old met.new chain.old chain.new number left)) }
    ensures reads { (D.state disk.new).reads ≡ (D.state disk.old).reads }
    ensures crash { LeavesOnly (D.state disk.old) (D.state disk.new) Nothing }
    ensures never_falls { D.fault_count disk.old ≤ D.fault_count disk.new }
    ensures failed { OnDiskFault result (HasRisen (D.fault_count disk.old) (D.fault_count disk.new)) }
{
    if !read_next(journal, disk, met, number, page)? {
        return Ok(None);
    }
    let next = take_page(chain, number, left, page.as_slice())?;
    Ok(next)
}

/// Reads a chain, which ends at the first page that was met. Its pages are met then.
#[tactic(auto, using(crate::proofs::ChainReads::chain_steps, green_io::proofs::Crash::crash_steps))]
fn read_chain<D: Disk>(
    journal: &PageJournal,
    alloc: Global,
    disk: &mut D,
    met: &mut Met,
    start: Start,
) -> Result<Option<Chain>, PageFault>
    ensures chain { IfOk result (λ found. WhereTold (D.state disk.old).reads (λ areas. IsReadApart found (pages_of areas.home) met.old met.new start)) }
    ensures reads { (D.state disk.new).reads ≡ (D.state disk.old).reads }
    ensures crash { LeavesOnly (D.state disk.old) (D.state disk.new) Nothing }
    ensures never_falls { D.fault_count disk.old ≤ D.fault_count disk.new }
    ensures failed { OnDiskFault result (HasRisen (D.fault_count disk.old) (D.fault_count disk.new)) }
{
    let mut chain = Chain::new(alloc);
    let mut page = Text::new(alloc);
    let mut named = start.first;
    let mut left = start.count;
    while left > 0 {
        let link = read_link(journal, disk, met, &mut page, &mut chain, named, left)?;
        let Some(next) = link else {
            return Ok(None);
        };
        named = next;
        left = left.saturating_sub(BODY_BYTES);
    }
    Ok(Some(chain))
}

/// Reads the chains that these bytes name.
#[tactic(auto, using(crate::proofs::HeaderReads::header_steps, green_io::proofs::Crash::crash_steps))]
fn read_chains<D: Disk>(
    journal: &PageJournal,
    alloc: Global,
    disk: &mut D,
    starts: &[u8],
) -> Result<Option<List<Chain>>, PageFault>
    ensures chains { IfOk result (λ found. WhereTold (D.state disk.old).reads (λ areas. AreReadChains found (pages_of areas.home) starts.now)) }
    ensures reads { (D.state disk.new).reads ≡ (D.state disk.old).reads }
    ensures crash { LeavesOnly (D.state disk.old) (D.state disk.new) Nothing }
    ensures never_falls { D.fault_count disk.old ≤ D.fault_count disk.new }
    ensures failed { OnDiskFault result (HasRisen (D.fault_count disk.old) (D.fault_count disk.new)) }
{
    let mut met = Met::new(alloc);
    let mut chains = List::new(alloc);
    chains.reserve(CHAINS)?;
    let mut rest = starts;
    for _ in 0..CHAINS {
        let Some((start, behind)) = split_start(rest) else {
            return Ok(None);
        };
        let found = read_chain(journal, alloc, disk, &mut met, start)?;
        let Some(chain) = found else {
            return Ok(None);
        };
        chains.push_reserved(chain);
        rest = behind;
    }
    Ok(Some(chains))
}

/// Reads the header, and the streams of its seven chains. There is none where page 0 is not there or is no header,
/// where a chain has not the pages for its length, or where a page comes twice.
///
/// The journal has to be clean: while a commit is unfinished, pages may be read of which some bytes were written. Each
/// page is read once at most, and memory is taken for what was read alone, whatever lengths the header says. For n pages
/// the time goes by n log n.
#[tactic(auto, using(crate::proofs::HeaderReads::header_steps, green_io::proofs::Crash::crash_steps))]
pub fn read_header<D: Disk>(
    journal: &PageJournal,
    alloc: Global,
    disk: &mut D,
) -> Result<Option<Header>, PageFault>
    ensures header { IfOk result (λ found. WhereTold (D.state disk.old).reads (λ areas. IsReadHeader (pages_of areas.home) found)) }
    ensures reads { (D.state disk.new).reads ≡ (D.state disk.old).reads }
    ensures crash { LeavesOnly (D.state disk.old) (D.state disk.new) Nothing }
    ensures never_falls { D.fault_count disk.old ≤ D.fault_count disk.new }
    ensures failed { OnDiskFault result (HasRisen (D.fault_count disk.old) (D.fault_count disk.new)) }
{
    let mut page = Text::new(alloc);
    if !journal.read(disk, 0, &mut page)? {
        return Ok(None);
    }
    let Some(front) = split_front(page.as_slice()) else {
        return Ok(None);
    };
    let position = front.position;
    let found = read_chains(journal, alloc, disk, front.starts)?;
    let Some(chains) = found else {
        return Ok(None);
    };
    Ok(Some(Header { position, chains }))
}
