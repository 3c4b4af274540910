//! Laws of stores. Each is a function that does nothing, whose contract says the law.
ghost use Rattle.std.specs.Prelude.{◌≡◌, false, length, Option};
ghost use Rattle.entry_codec.specs.Logged.{PlainLogged};
ghost use Rattle.green_io.specs.Areas.{Areas};
ghost use Rattle.green_io.specs.Disk.{images_now};
ghost use Rattle.world_rules.specs.History.{is_live, durable_entries};
ghost use Rattle.green_store.specs.Durable.{kept_rows, Keeps, HoldsWith, IsThat};
ghost use Rattle.green_store.specs.Laws.{LegalStepsAddOwn, StepsCount, StepsIsolate, StepsStayPlaced};
ghost use Rattle.green_store.specs.Opening.{EachHasOneOpening, OpeningKeepsRows};

use crate::store::StoreOver;
use edit_log::laws::{one_reading, open_is_whole, pending_is_whole};
use entry_codec::laws::old_has_new;
use green_io::Disk;
use paged_world::OnPages;

/// Whatever sessions ask, in whatever order: new documents are new, and changes are made at places that are there.
pub fn steps_stay_placed()
    ensures { StepsStayPlaced }
{}

/// And the serials of each session that began after the last restart count its entries from 1 on.
pub fn steps_count()
    ensures { StepsCount }
{}

/// And each query of a session is answered by what the session may read alone.
pub fn steps_isolate()
    ensures { StepsIsolate }
{}

/// What a crash leaves of a disk between two steps: a whole log with the kept entries, or with the pending edit behind them.
pub fn images_are_kept<W: OnPages, D: Disk>(disk: &D, store: &StoreOver<W>)
    ensures { (pending : Option PlainLogged) → Keeps (D.state disk.now) store.now pending → (image : Areas) → images_now (D.state disk.now) image → HoldsWith (kept_rows store.now) (IsThat pending) image }
{
    open_is_whole(disk, &store.log);
    pending_is_whole(disk, &store.log);
}

/// Where a store is opened, the bytes of the areas for a log alone decide between its entries and the one place of its damage.
pub fn one_opening()
    ensures { EachHasOneOpening }
{
    one_reading();
}

/// What opening leaves of these areas has the entries that they had, with their moments, also where the log has moved.
pub fn opening_keeps_rows()
    ensures { OpeningKeepsRows }
{
    one_reading();
    old_has_new();
}

/// A legal step of a session adds nothing to the history, or one entry of that session.
pub fn legal_steps_add_own()
    ensures { LegalStepsAddOwn }
{}

/// Sessions have numbers from 1 on, so none of a store is live under the number 0.
pub fn no_session_is_zero<W: OnPages>(store: &StoreOver<W>)
    ensures { is_live store.now.history 0 ≡ false }
{
    let _ = &store.history;
}

/// Each kept entry of a store has its moment.
pub fn each_has_a_moment<W: OnPages>(store: &StoreOver<W>)
    ensures { length store.now.moments ≡ length (durable_entries store.now.history) }
{
    let _ = &store.moments;
}
