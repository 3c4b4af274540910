//! Loading trees from pages.
ghost use Rattle.std.specs.Prelude.{◌≡◌, ◌≤◌, length, None, IfOk};
ghost use Rattle.green_io.specs.Disk.{LeavesOnly, LeavesBut, WhereTold};
ghost use Rattle.green_io.specs.Outside.{HasRisen};
ghost use Rattle.page_journal.specs.Answers.{OnDiskFault};
ghost use Rattle.page_journal.specs.Images.{GivesSettled, is_paged};
ghost use Rattle.page_journal.specs.JournalBytes.{opened};
ghost use Rattle.page_chains.specs.Reading.{plain_chains};
ghost use Rattle.page_trees.specs.Trees.{stream};
ghost use Rattle.green_flush.specs.Loads.{HasLoaded, IsLoaded};
ghost use Rattle.green_flush.specs.Standing.{IsOpened};
ghost use Rattle.green_flush.specs.inside.Finding.{AreFoundSound, put_aside, IsOpenedOver};

use crate::flush::Flush;
use crate::owned::Owned;
use crate::soundness::are_sound;
use crate::trees::Trees;
use febe_data::{Memory, Text};
use green_io::Disk;
use page_chains::{Chain, Header, read_header};
use page_journal::{PageFault, PageJournal};
use page_trees::trees_in;
use std::alloc::Global;

/// The trees that the streams of a header spell, if they pass the tests.
fn sound_trees(alloc: Global, header: &Header) -> Result<Option<Owned>, Memory>
    ensures { IfOk result (λ found. AreFoundSound (plain_chains header.now.chains.items) found) }
{
    let Some(read) = trees_in(alloc, header)? else {
        return Ok(None);
    };
    let trees = Owned::of(read);
    if !are_sound(alloc, &trees)? {
        return Ok(None);
    }
    Ok(Some(trees))
}

/// The bytes of the tables, the last of seven streams.
fn table_stream(alloc: Global, chains: &[Chain]) -> Result<Text, Memory>
    requires { length chains.now ≡ 7 }
    ensures { IfOk result (λ bytes. bytes.items ≡ stream (plain_chains chains.now) 6) }
{
    Text::from_slice(alloc, chains[6].bytes.as_slice())
}

/// What a folder's pages gave when they were opened.
#[derive(Drop)]
pub struct Opened {
    pub flush: Flush,
    /// The trees, and how many entries of the log they stand for.
    pub trees: Option<(Trees, u64)>,
}

impl Opened {
    /// Nothing was found, or it was put aside.
    fn aside(alloc: Global, journal: PageJournal) -> Opened
        ensures flush { result.flush.pages ≡ put_aside journal }
        ensures trees { result.trees ≡ None }
    {
        Opened {
            flush: Flush::aside(alloc, journal),
            trees: None,
        }
    }

    /// What a header and its streams give.
    fn over(alloc: Global, journal: PageJournal, header: &Header) -> Result<Opened, Memory>
        ensures { IfOk result (λ made. IsOpenedOver (plain_chains header.now.chains.items) header.now.position journal made.flush made.trees) }
    {
        let Some(trees) = sound_trees(alloc, header)? else {
            return Ok(Opened::aside(alloc, journal));
        };
        let chains = header.chains.as_slice();
        let tables = table_stream(alloc, chains)?;
        let flush = Flush::going_on(alloc, journal, chains, &trees)?;
        Ok(Opened {
            flush,
            trees: Some((trees.with_tables(tables), header.position)),
        })
    }
}

/// Opens the journal of the pages, loads the trees, and is ready for saves. There are no trees exactly where there is no header
/// with its streams, or one of the tests fails: then the first save makes a blank start.
pub fn open_pages<D: Disk>(alloc: Global, disk: &mut D) -> Result<Opened, PageFault>
    ensures any_moment { WhereTold (D.state disk.old).reads (λ areas. LeavesOnly (D.state disk.old) (D.state disk.new) (GivesSettled areas)) }
    ensures opened { IfOk result (λ made. WhereTold (D.state disk.old).reads (λ areas. IsOpened (opened areas) (D.state disk.new) made.flush made.trees)) }
    ensures sound { IfOk result (λ made. HasLoaded made.trees) }
    ensures others { LeavesBut is_paged (D.state disk.old) (D.state disk.new) }
    ensures never_falls { D.fault_count disk.old ≤ D.fault_count disk.new }
    ensures failed { OnDiskFault result (HasRisen (D.fault_count disk.old) (D.fault_count disk.new)) }
{
    let journal = PageJournal::open(alloc, disk)?;
    let Some(header) = read_header(&journal, alloc, disk)? else {
        return Ok(Opened::aside(alloc, journal));
    };
    let opened = Opened::over(alloc, journal, &header)?;
    Ok(opened)
}

/// The trees that the pages hold, and their position; `None` exactly where they hold none.
pub fn load<D: Disk>(alloc: Global, disk: &mut D) -> Result<Option<(Trees, u64)>, PageFault>
    ensures any_moment { WhereTold (D.state disk.old).reads (λ areas. LeavesOnly (D.state disk.old) (D.state disk.new) (GivesSettled areas)) }
    ensures loaded { IfOk result (λ trees. WhereTold (D.state disk.old).reads (λ areas. IsLoaded (opened areas) trees)) }
    ensures others { LeavesBut is_paged (D.state disk.old) (D.state disk.new) }
    ensures never_falls { D.fault_count disk.old ≤ D.fault_count disk.new }
    ensures failed { OnDiskFault result (HasRisen (D.fault_count disk.old) (D.fault_count disk.new)) }
{
    let opened = open_pages(alloc, disk)?;
    Ok(opened.trees)
}
