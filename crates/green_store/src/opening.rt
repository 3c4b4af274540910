//! Opening a store: the log is read, and its entries build the world again.
ghost use Rattle.std.specs.Prelude.{◌≡◌, ◌≤◌, List as ListOf, [], ◌∷◌, ◌++◌, length, take, true, false, None, Option as OptionOf, IfOk, IsSome};
ghost use Rattle.std.specs.List.{AllByRecursion};
ghost use Rattle.febe_data.specs.Plain.{PlainEntry, plain_entry, plain_history};
ghost use Rattle.entry_codec.specs.Bodies.{HasBody};
ghost use Rattle.entry_codec.specs.Logged.{plain_log, entries_of, moments_of, timed};
ghost use Rattle.entry_fits.specs.Fits.{AllFit};
ghost use Rattle.entry_fits.specs.Greatest.{AreSerialsOf};
ghost use Rattle.green_io.specs.Disk.{LeavesOnly, WhereTold};
ghost use Rattle.green_io.specs.Outside.{HasRisen};
ghost use Rattle.world_rules.specs.History.{restart_entry};
ghost use Rattle.world_rules.specs.FlatView.{FlatView, nothing_yet, view_of, after_entry};
ghost use Rattle.edit_log.specs.Images.{AreEntries, AsRead, HoldsAsRead};
ghost use Rattle.edit_log.specs.Log.{most_entries};
ghost use Rattle.edit_log.specs.Second.{begins_at, HoldsWhole};
ghost use Rattle.page_journal.specs.JournalBytes.{opened};
ghost use Rattle.page_trees.specs.Trees.{PlainTrees};
ghost use Rattle.green_flush.specs.Loads.{TreesAt, AreLoaded, HasLoaded};
ghost use Rattle.green_flush.specs.Standing.{IsRenewed, trees_at};
ghost use Rattle.tree_world.specs.Nodes.{AllGrown};
ghost use Rattle.paged_world.specs.Standing.{MayGoOn};
ghost use Rattle.green_store.specs.Durable.{Keeps};
ghost use Rattle.green_store.specs.Paged.{HasPages};
ghost use Rattle.green_store.specs.Opening.{IsFlushedAt, IsFlushedFrom, IsOpenedFrom, IsDamagedLog, IsUnfitFrom, LeavesMisspelled, OnDamagedLog, OnDiskFailed, UnlessDiskFailed, ReadsAsBefore, OpensAs, gate_place, opened_with, untimed_all};
ghost use Rattle.green_store.specs.Replayed.{AreTold, IsRetold, IsRebuilt, AreTreesAt, MayHaveGoneOn, came_to, IsSameOrRenewed};
ghost use Rattle.green_store.specs.Sessions.{greatest_session};

use crate::store::{Store, StoreOver};
use crate::tending::{Tended, tend};
use edit_log::laws::{one_reading, open_is_whole};
use edit_log::{EditLog, LogFault};
use entry_codec::laws::{body_says_length, moments_are_as_long, old_has_new};
use entry_codec::{LogFormat, Logged, body_length};
use entry_fits::laws::{fitting_are_kept, fitting_begin, one_more_fits};
use entry_fits::{Serials, fits};
use febe_data::{Change, Entry, Limits, List, Memory};
use green_flush::{Flush, Opened, Trees, open_pages};
use green_io::Disk;
use page_journal::PageFault;
use paged_world::OnPages;
use std::alloc::Global;
use std::mem;
use thiserror::Error;
use tree_world::{Rebalance, TreeWorld};

/// Why a store was not opened. Its text is the one that a program prints.
#[derive(Clone, Copy, Debug, PartialEq, Eq, Error)]
pub enum OpenFault {
    /// What stands in the log behind the gate at this place is no entry, one too many, or one that does not fit after those
    /// before it.
    #[error("damaged log at {at}")]
    Damaged {
        /// The gate's offset in the area that the log was read in.
        at: u64,
    },
    /// The disk failed.
    #[error("disk fault")]
    Disk,
    /// There was no memory for the log or for what it builds.
    #[error("out of memory")]
    Memory,
}

impl From<Memory> for OpenFault {
    ghost use Rattle.green_store.specs.declared.opening.OpenFault.TheVariants as faults;

    ghost from_gives = { λ _ fault. fault ≡ faults.Memory };

    fn from(_memory: Memory) -> OpenFault {
        OpenFault::Memory
    }
}

impl From<PageFault> for OpenFault {
    ghost use Rattle.green_store.specs.Opening.{fault_of_pages};

    ghost from_gives = { λ was fault. fault ≡ fault_of_pages was };

    fn from(fault: PageFault) -> OpenFault {
        match fault {
            PageFault::Disk => OpenFault::Disk,
            PageFault::Memory => OpenFault::Memory,
        }
    }
}

impl From<LogFault> for OpenFault {
    ghost use Rattle.green_store.specs.Opening.{fault_of};

    ghost from_gives = { λ was fault. fault ≡ fault_of was };

    fn from(fault: LogFault) -> OpenFault {
        match fault {
            LogFault::Damaged { at } => OpenFault::Damaged { at },
            LogFault::Disk => OpenFault::Disk,
            LogFault::Memory => OpenFault::Memory,
        }
    }
}

/// Where a log of this format begins in its area.
fn beginning(format: LogFormat) -> u64
    ensures { result ≡ begins_at format }
{
    match format {
        LogFormat::Old => 0,
        LogFormat::New => 1,
    }
}

/// Where the gate behind these entries stands in the area of a log of this format. It takes no memory.
fn gate_behind(format: LogFormat, entries: &[Entry]) -> u64
    requires spelled { AllByRecursion (HasBody format) (untimed_all (plain_history entries.now)) }
    requires few { length entries.now ≤ most_entries }
    ensures { result ≡ gate_place format (untimed_all (plain_history entries.now)) }
{
    // So the place is far below the greatest number.
    body_says_length();
    let mut at = beginning(format);
    for entry in entries {
        at += 1 + body_length(format, entry);
    }
    at
}

/// The entry of a restart.
fn restart() -> Entry
    ensures { plain_entry result ≡ restart_entry }
{
    Entry {
        session: 0,
        serial: 0,
        change: Change::Restart,
    }
}

/// Takes the entry out of its row, where a restart is left.
fn take_entry(row: &mut Logged) -> Entry
    ensures { result ≡ row.old.entry }
{
    mem::replace(&mut row.entry, restart())
}

/// Moves the entries of the rows, and their moments, into lists that have room for them.
fn move_apart(rows: &mut [Logged], entries: &mut List<Entry>, moments: &mut List<u64>)
    requires room { length rows.old ≤ entries.old.spare }
    requires moments_room { length rows.old ≤ moments.old.spare }
    ensures entries { plain_history entries.new.items ≡ plain_history entries.old.items ++ entries_of (plain_log rows.old) }
    ensures moments { moments.new.items ≡ moments.old.items ++ moments_of (plain_log rows.old) }
{
    for k in 0..rows.len() {
        moments.push_reserved(rows[k].moment);
        entries.push_reserved(take_entry(&mut rows[k]));
    }
}

/// The entries and their moments, each in a list of its own. Nothing that entries hold is copied.
fn take_apart(alloc: Global, mut rows: List<Logged>) -> Result<(List<Entry>, List<u64>), Memory>
    ensures entries { IfOk result (λ parts. plain_history parts.0.items ≡ entries_of (plain_log rows.items)) }
    ensures moments { IfOk result (λ parts. parts.1.items ≡ moments_of (plain_log rows.items)) }
{
    let mut entries = List::new(alloc);
    entries.reserve(rows.len())?;
    let mut moments = List::new(alloc);
    moments.reserve(rows.len())?;
    move_apart(rows.as_mut_slice(), &mut entries, &mut moments);
    Ok((entries, moments))
}

/// What telling some of the entries again came to.
#[derive(Clone, Copy)]
pub(crate) enum Retold {
    /// The entry at this place does not fit after those before it.
    Unfit { at: usize },
    /// All of them fit. Whether nodes were swept away meanwhile.
    Whole { swept: bool },
}

/// What building a world from all entries came to.
#[derive(Clone, Copy)]
pub(crate) enum Rebuilt {
    /// The entry at this place does not fit after those before it.
    Unfit { at: usize },
    /// All of them fit. For how many the trees stand that are gone on from, 0 where none are; and whether the next save may go on
    /// from them.
    Whole { flushed: u64, goes_on: bool },
}

/// Tells an entry again that fits, and puts the trees right by one step. It gives whether nodes were swept away now or before.
fn retell_one<W: Rebalance>(
    alloc: Global,
    world: &mut W,
    serials: &mut Serials,
    base: &mut u64,
    entry: &Entry,
    before: bool,
) -> Result<bool, Memory>
    ensures stands { (view : FlatView) → W.stands world.old view → IfOk result (λ swept. W.stands world.new (after_entry view (plain_entry entry.now))) }
    ensures noted { (past : ListOf PlainEntry) → AreSerialsOf past serials.old → IfOk result (λ swept. AreSerialsOf (past ++ plain_entry entry.now ∷ []) serials.new) }
    ensures nodes { IfOk result (λ swept. swept ≡ false → (before ≡ false) × AllGrown (W.world_nodes world.old) (W.world_nodes world.new)) }
{
    world.replay(alloc, entry)?;
    serials.add(entry)?;
    match tend(alloc, world, base)? {
        Tended::Swept => Ok(true),
        Tended::Balanced => Ok(before),
        Tended::Idle => Ok(before),
    }
}

/// Tells the entries from one place to another again, over a world that those before them have built. Each is tested to fit
/// after those before it, and the trees are put right by one step behind each.
fn retell<W: Rebalance>(
    alloc: Global,
    world: &mut W,
    serials: &mut Serials,
    base: &mut u64,
    entries: &[Entry],
    from: usize,
    to: usize,
) -> Result<Retold, Memory>
    requires order { from ≤ to }
    requires within { to ≤ length entries.now }
    requires told { AreTold (plain_history (take from entries.now)) (W.stands world.old) serials.old }
    ensures told { IfOk result (IsRetold (plain_history entries.now) (plain_history (take to entries.now)) (W.stands world.new) serials.new (W.world_nodes world.old) (W.world_nodes world.new)) }
    ensures idle { from ≡ to → world.new ≡ world.old }
{
    // So the entries in front of each one fit.
    one_more_fits();
    let mut swept = false;
    for count in from..to {
        let entry = &entries[count];
        if !fits(world, alloc, serials.greatest(entry.session), entry)? {
            return Ok(Retold::Unfit { at: count });
        }
        swept = retell_one(alloc, world, serials, base, entry, swept)?;
    }
    Ok(Retold::Whole { swept })
}

/// Builds the world of the entries, with no trees to go on from.
fn rebuild_afresh<W: Rebalance>(
    alloc: Global,
    world: &mut W,
    entries: &[Entry],
) -> Result<Rebuilt, Memory>
    requires { W.stands world.old nothing_yet }
    ensures rebuilt { IfOk result (IsRebuilt (plain_history entries.now) (W.stands world.new)) }
    ensures afresh { IfOk result (MayHaveGoneOn None (plain_history entries.now) (W.condition world.new) (W.world_nodes world.new)) }
{
    let mut serials = Serials::new(alloc);
    let mut base = world.nodes();
    let to = entries.len();
    match retell(alloc, world, &mut serials, &mut base, entries, 0, to)? {
        Retold::Unfit { at } => Ok(Rebuilt::Unfit { at }),
        Retold::Whole { swept: _ } => Ok(Rebuilt::Whole {
            flushed: 0,
            goes_on: false,
        }),
    }
}

/// Builds the world of the entries, and behind so many of them goes on with these trees, if they stand for what these build.
/// Behind the last entry nothing is put right any more then, so that the trees are as they were read.
fn rebuild_on<W: OnPages>(
    alloc: Global,
    world: &mut W,
    entries: &[Entry],
    trees: Trees,
    position: usize,
) -> Result<Rebuilt, Memory>
    requires stands { W.stands world.old nothing_yet }
    requires within { position ≤ length entries.now }
    requires sound { (plain : PlainTrees) × AreLoaded trees plain }
    ensures rebuilt { IfOk result (IsRebuilt (plain_history entries.now) (W.stands world.new)) }
    ensures gone_on { (plain : PlainTrees) → AreLoaded trees plain → IfOk result (MayHaveGoneOn (trees_at plain position) (plain_history entries.now) (W.condition world.new) (W.world_nodes world.new)) }
{
    let mut serials = Serials::new(alloc);
    let mut base = world.nodes();
    match retell(alloc, world, &mut serials, &mut base, entries, 0, position)? {
        Retold::Unfit { at } => Ok(Rebuilt::Unfit { at }),
        Retold::Whole { swept: _ } => {
            rebuild_behind(alloc, world, serials, base, entries, trees, position)
        }
    }
}

/// Goes on with these trees over a world that so many entries have built, and builds on with the entries behind them.
fn rebuild_behind<W: OnPages>(
    alloc: Global,
    world: &mut W,
    mut serials: Serials,
    mut base: u64,
    entries: &[Entry],
    trees: Trees,
    position: usize,
) -> Result<Rebuilt, Memory>
    requires within { position ≤ length entries.now }
    requires told { AreTold (plain_history (take position entries.now)) (W.stands world.old) serials }
    requires sound { (plain : PlainTrees) × AreLoaded trees plain }
    ensures rebuilt { IfOk result (IsRebuilt (plain_history entries.now) (W.stands world.new)) }
    ensures gone_on { (plain : PlainTrees) → AreLoaded trees plain → IfOk result (MayHaveGoneOn (trees_at plain position) (plain_history entries.now) (W.condition world.new) (W.world_nodes world.new)) }
{
    let adopted = world.adopt(alloc, trees)?;
    let to = entries.len();
    match retell(alloc, world, &mut serials, &mut base, entries, position, to)? {
        Retold::Unfit { at } => Ok(Rebuilt::Unfit { at }),
        Retold::Whole { swept } => Ok(went_on(adopted, swept, position as u64)),
    }
}

/// What it came to, where all entries fit.
fn went_on(adopted: bool, swept: bool, position: u64) -> Rebuilt
    ensures { result ≡ came_to adopted swept position }
{
    if !adopted {
        return Rebuilt::Whole {
            flushed: 0,
            goes_on: false,
        };
    }
    Rebuilt::Whole {
        flushed: position,
        goes_on: !swept,
    }
}

/// Builds the world of the entries, each of which is tested to fit after those before it. It goes on with the trees that were
/// loaded, where these stand for as many first entries as they say.
fn rebuild<W: OnPages>(
    alloc: Global,
    world: &mut W,
    entries: &[Entry],
    loaded: Option<(Trees, u64)>,
) -> Result<Rebuilt, Memory>
    requires stands { W.stands world.old nothing_yet }
    requires sound { HasLoaded loaded }
    ensures rebuilt { IfOk result (IsRebuilt (plain_history entries.now) (W.stands world.new)) }
    ensures gone_on { (now : OptionOf TreesAt) → AreTreesAt loaded now → IfOk result (MayHaveGoneOn now (plain_history entries.now) (W.condition world.new) (W.world_nodes world.new)) }
{
    let Some((trees, position)) = loaded else {
        return rebuild_afresh(alloc, world, entries);
    };
    if position > entries.len() as u64 {
        return rebuild_afresh(alloc, world, entries);
    }
    rebuild_on(alloc, world, entries, trees, position as usize)
}

/// Where the next save may not go on, it writes every stream anew.
fn for_saves(mut flush: Flush, goes_on: bool) -> Flush
    ensures same { goes_on ≡ true → result ≡ flush }
    ensures anew { goes_on ≡ false → IsRenewed flush result }
{
    if goes_on {
        return flush;
    }
    flush.renew();
    flush
}

/// The greatest session number of the entries, 0 where there is none.
fn greatest_session(entries: &[Entry]) -> u64
    ensures { result ≡ greatest_session (plain_history entries.now) }
{
    let mut greatest = 0;
    for entry in entries {
        greatest = greatest.max(entry.session);
    }
    greatest
}

impl<W: OnPages + Drop> StoreOver<W> {
    /// Opens a store over a disk, as [`Store::open`] does, with this world, which no entry has changed yet.
    pub fn open_over<D: Disk>(
        alloc: Global,
        disk: &mut D,
        world: W,
        limits: Limits,
    ) -> Result<StoreOver<W>, OpenFault>
        requires { W.stands world nothing_yet }
        ensures history { IfOk result (λ store. IsOpenedFrom (D.state disk.old).reads store.history store.moments) }
        ensures limits { IfOk result (λ store. store.limits ≡ limits) }
        ensures base { IfOk result (λ store. store.base ≡ store.trees.nodes) }
        ensures keeps { IfOk result (λ store. IsSome (D.state disk.old).reads → Keeps (D.state disk.new) store None) }
        ensures damaged { OnDamagedLog result (λ at. WhereTold (D.state disk.old).reads (IsDamagedLog at)) }
        ensures untouched { OnDamagedLog result (λ at. LeavesMisspelled at (D.state disk.old).reads (D.state disk.new).reads) }
        ensures left { UnlessDiskFailed result (ReadsAsBefore (D.state disk.old).reads (D.state disk.new).reads) }
        ensures whole { (rows : _) → AsRead (D.state disk.old).reads (HoldsWhole rows) → OpensAs result rows }
        ensures any_moment { (rows : _) → AsRead (D.state disk.old).reads (HoldsWhole rows) → LeavesOnly (D.state disk.old) (D.state disk.new) (HoldsAsRead rows (D.state disk.old).reads) }
        ensures pages { IfOk result (λ store. IsSome (D.state disk.old).reads → HasPages (D.state disk.new) store) }
        ensures flushed { IfOk result (λ store. WhereTold (D.state disk.old).reads (λ areas. IsFlushedFrom (opened areas) store)) }
        ensures never_falls { D.fault_count disk.old ≤ D.fault_count disk.new }
        ensures failed { OnDiskFailed result (HasRisen (D.fault_count disk.old) (D.fault_count disk.new)) }
    {
        // So a whole log is read as its entries, what could be read has no misspelled body, and old entries may be new ones.
        one_reading();
        old_has_new();
        fitting_are_kept();
        let (log, rows) = EditLog::open(alloc, disk)?;
        // And it stays whole while the pages are read.
        open_is_whole(&*disk, &log);
        let pages = open_pages(alloc, disk)?;
        StoreOver::over(alloc, world, log, rows, limits, pages)
    }

    /// A store with the entries of an open log and their moments, over a world that no entry has changed yet, and with what its
    /// pages gave.
    fn over(
        alloc: Global,
        mut world: W,
        log: EditLog,
        rows: List<Logged>,
        limits: Limits,
        pages: Opened,
    ) -> Result<StoreOver<W>, OpenFault>
        requires stands { W.stands world nothing_yet }
        requires spelled { AllByRecursion (HasBody log.read) (plain_log rows.items) }
        requires few { length (plain_log rows.items) ≤ most_entries }
        requires sound { HasLoaded pages.trees }
        ensures history { IfOk result (λ store. store.history ≡ opened_with (entries_of (plain_log rows.items))) }
        ensures moments { IfOk result (λ store. store.moments ≡ moments_of (plain_log rows.items)) }
        ensures fit { IfOk result (λ store. AllFit [] (entries_of (plain_log rows.items))) }
        ensures limits { IfOk result (λ store. store.limits ≡ limits) }
        ensures log { IfOk result (λ store. store.log ≡ log) }
        ensures base { IfOk result (λ store. store.base ≡ store.trees.nodes) }
        ensures flush { IfOk result (λ store. IsSameOrRenewed pages.flush store.flush) }
        ensures goes_on { (now : OptionOf TreesAt) → AreTreesAt pages.trees now → IfOk result (λ store. MayGoOn store.flush now store.nodes) }
        ensures flushed { (now : OptionOf TreesAt) → AreTreesAt pages.trees now → IfOk result (IsFlushedAt now (entries_of (plain_log rows.items))) }
        ensures damaged { OnDamagedLog result (λ at. (count : _) × IsUnfitFrom count (entries_of (plain_log rows.items)) × (at ≡ gate_place log.read (take count (plain_log rows.items)))) }
        ensures no_disk { OnDiskFailed result ⊥ }
    {
        // So the place of a gate is told without the moments, and the entries may be those of the log that is open.
        moments_are_as_long();
        old_has_new();
        let Opened { flush, trees } = pages;
        let (entries, moments) = take_apart(alloc, rows)?;
        match rebuild(alloc, &mut world, entries.as_slice(), trees)? {
            Rebuilt::Unfit { at } => {
                let at = gate_behind(log.read_format(), entries.as_slice().split_at(at).0);
                Err(OpenFault::Damaged { at })
            }
            Rebuilt::Whole { flushed, goes_on } => {
                let flush = for_saves(flush, goes_on);
                let store = StoreOver::begun(
                    alloc, world, log, entries, moments, limits, flush, flushed,
                )?;
                Ok(store)
            }
        }
    }

    /// A store that begins with these entries, which have these moments, and a restart, over a world that the entries have built.
    fn begun(
        alloc: Global,
        mut world: W,
        log: EditLog,
        entries: List<Entry>,
        moments: List<u64>,
        limits: Limits,
        flush: Flush,
        flushed: u64,
    ) -> Result<StoreOver<W>, Memory>
        requires stands { W.stands world (view_of (plain_history entries.items)) }
        requires entries { AreEntries (timed (plain_history entries.items) moments.items) }
        requires timed { length moments.items ≡ length (plain_history entries.items) }
        requires within { flushed ≤ length (plain_history entries.items) }
        ensures history { IfOk result (λ store. store.history ≡ opened_with (plain_history entries.items)) }
        ensures moments { IfOk result (λ store. store.moments ≡ moments.items) }
        ensures limits { IfOk result (λ store. store.limits ≡ limits) }
        ensures log { IfOk result (λ store. store.log ≡ log) }
        ensures base { IfOk result (λ store. store.base ≡ store.trees.nodes) }
        ensures trees { IfOk result (λ store. store.trees ≡ W.condition world) }
        ensures nodes { IfOk result (λ store. store.nodes ≡ W.world_nodes world) }
        ensures flush { IfOk result (λ store. store.flush ≡ flush) }
        ensures flushed { IfOk result (λ store. store.flushed ≡ flushed) }
    {
        // So the history is regular, and its kept entries are those of the log.
        fitting_are_kept();
        fitting_begin();
        let greatest = greatest_session(entries.as_slice());
        let restart = restart();
        world.apply_beside(alloc, &restart)?;
        let base = world.nodes();
        let mut history = entries;
        history.push(restart)?;
        Ok(StoreOver {
            history,
            moments,
            world,
            live: List::new(alloc),
            greatest,
            limits,
            log,
            base,
            flush,
            flushed,
        })
    }
}

impl StoreOver<TreeWorld> {
    /// Opens the store over a disk: reads the log, builds the world of its entries in one pass, each tested to fit after those
    /// before it, and restarts. No session is live then.
    ///
    /// A log of n bytes is read once, and behind each entry the trees are put right by one step, so that they are in the shape
    /// that a run leaves which makes one behind each edit. The trees that the pages hold are loaded first; behind the entry that
    /// they say they stand for they are compared with the world that was built, and the store goes on from them where they stand
    /// for it. Else they are put aside, nothing is written for them, and the next save writes every stream anew; so it does where
    /// nodes were swept away behind that entry.
    ///
    /// A log of before is moved into the second area, where each of its entries has the moment 0, and is emptied.
    ///
    /// Where the log is damaged its place is that of the first gate with no entry behind it, or one too many, anywhere: then it
    /// is left as it was. Only where there is none, it is the place of the first gate whose entry does not fit: that log has
    /// been moved, and the place is in the area where it was read. Limits that are below what the log has do not matter here:
    /// edits are then refused as full.
    pub fn open<D: Disk>(alloc: Global, disk: &mut D, limits: Limits) -> Result<Store, OpenFault>
        ensures history { IfOk result (λ store. IsOpenedFrom (D.state disk.old).reads store.history store.moments) }
        ensures limits { IfOk result (λ store. store.limits ≡ limits) }
        ensures base { IfOk result (λ store. store.base ≡ store.trees.nodes) }
        ensures keeps { IfOk result (λ store. IsSome (D.state disk.old).reads → Keeps (D.state disk.new) store None) }
        ensures damaged { OnDamagedLog result (λ at. WhereTold (D.state disk.old).reads (IsDamagedLog at)) }
        ensures untouched { OnDamagedLog result (λ at. LeavesMisspelled at (D.state disk.old).reads (D.state disk.new).reads) }
        ensures left { UnlessDiskFailed result (ReadsAsBefore (D.state disk.old).reads (D.state disk.new).reads) }
        ensures whole { (rows : _) → AsRead (D.state disk.old).reads (HoldsWhole rows) → OpensAs result rows }
        ensures any_moment { (rows : _) → AsRead (D.state disk.old).reads (HoldsWhole rows) → LeavesOnly (D.state disk.old) (D.state disk.new) (HoldsAsRead rows (D.state disk.old).reads) }
        ensures pages { IfOk result (λ store. IsSome (D.state disk.old).reads → HasPages (D.state disk.new) store) }
        ensures flushed { IfOk result (λ store. WhereTold (D.state disk.old).reads (λ areas. IsFlushedFrom (opened areas) store)) }
        ensures never_falls { D.fault_count disk.old ≤ D.fault_count disk.new }
        ensures failed { OnDiskFailed result (HasRisen (D.fault_count disk.old) (D.fault_count disk.new)) }
    {
        let world = TreeWorld::new(alloc)?;
        StoreOver::open_over(alloc, disk, world, limits)
    }
}
