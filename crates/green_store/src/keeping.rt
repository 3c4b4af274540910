//! The records of edits, and how one comes into the log.
ghost use Rattle.std.specs.Prelude.{◌≡◌, ◌⊎◌, ◌≤◌, List, [], ◌∷◌, ◌++◌, Option, IfOk};
ghost use Rattle.febe_data.specs.Plain.{plain_change, plain_entry};
ghost use Rattle.entry_codec.specs.Bodies.{HasBody};
ghost use Rattle.entry_codec.specs.Format.{body_of};
ghost use Rattle.entry_codec.specs.Logged.{PlainLogged, made_at_moment};
ghost use Rattle.entry_codec.specs.declared.format.LogFormat.TheVariants.{New};
ghost use Rattle.green_io.specs.Areas.{is_same};
ghost use Rattle.green_io.specs.declared.disk.Area.TheVariants.{Second};
ghost use Rattle.green_io.specs.Disk.{LeavesOnly, LeavesBut};
ghost use Rattle.green_io.specs.Outside.{HasRisen};
ghost use Rattle.edit_log.specs.Answers.{OnDone, OnFailed};
ghost use Rattle.edit_log.specs.Images.{IsAppendable};
ghost use Rattle.green_store.specs.Durable.{LogHas, HoldsWith, IsThat};
ghost use Rattle.green_store.specs.inside.{IsTyped, PendsOneOf};

use edit_log::{Appended, EditLog};
use entry_codec::encode;
use febe_data::{Change, Entry, Memory, Text};
use green_io::Disk;
use std::alloc::Global;

/// Looks at the fields of a change, so that what their types say of them is known.
pub(crate) fn look_at(change: &Change)
    ensures { IsTyped (plain_change change.now) }
{
    match change {
        Change::Create { document }
        | Change::Version {
            source: _,
            document,
        }
        | Change::OpenCopy {
            source: _,
            document,
        } => {
            let _ = document.places();
        }
        Change::Insert {
            document: _,
            at,
            first,
            text: _,
        } => {
            let _numbers = (*at, *first);
        }
        Change::Copy {
            document: _,
            at,
            specs: _,
        } => {
            let _at = *at;
        }
        Change::Link { number, place, .. } => {
            let _numbers = (*number, *place);
        }
        _ => {}
    }
}

/// What is appended for an entry that is made at this moment: its body, and the byte 0 that will be the next end gate.
pub(crate) fn record_of(alloc: Global, entry: &Entry, moment: u64) -> Result<Text, Memory>
    requires { HasBody New (made_at_moment (plain_entry entry.now) moment) }
    ensures { IfOk result (λ bytes. bytes.items ≡ body_of New (made_at_moment (plain_entry entry.now) moment) ++ (0 ∷ [])) }
{
    let mut bytes = encode(alloc, entry, moment)?;
    bytes.push(0)?;
    Ok(bytes)
}

/// Takes a pending edit back, where one is, and appends the record. It takes no memory.
pub(crate) fn keep<D: Disk>(log: &mut EditLog, disk: &mut D, bytes: &Text) -> Appended
    ensures any_moment { (rows : List PlainLogged) (pending : Option PlainLogged) (row : PlainLogged) → IsAppendable rows row bytes.now.items → LogHas (D.state disk.old) log.old rows pending → LeavesOnly (D.state disk.old) (D.state disk.new) (HoldsWith rows (λ other. IsThat pending other ⊎ (other ≡ row))) }
    ensures done { (rows : List PlainLogged) (pending : Option PlainLogged) (row : PlainLogged) → IsAppendable rows row bytes.now.items → LogHas (D.state disk.old) log.old rows pending → OnDone result (LogHas (D.state disk.new) log.new (rows ++ row ∷ []) None) }
    ensures pending { (rows : List PlainLogged) (pending : Option PlainLogged) (row : PlainLogged) → IsAppendable rows row bytes.now.items → LogHas (D.state disk.old) log.old rows pending → OnFailed result (PendsOneOf (D.state disk.new) log.new rows (λ other. IsThat pending other ⊎ (other ≡ row))) }
    ensures others { LeavesBut (is_same Second) (D.state disk.old) (D.state disk.new) }
    ensures never_falls { D.fault_count disk.old ≤ D.fault_count disk.new }
    ensures failed { OnFailed result (HasRisen (D.fault_count disk.old) (D.fault_count disk.new)) }
{
    let Appended::Ok = log.mend(disk) else {
        return Appended::Disk;
    };
    log.append(disk, bytes)
}
