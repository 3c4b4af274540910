//! An open log, to which bodies are appended in the second area.
ghost use Rattle.std.specs.Prelude.{◌≡◌, ◌≢◌, ◌≤◌, List, [], ◌∷◌, ◌++◌, IsTrue};
ghost use Rattle.entry_codec.specs.Logged.{PlainLogged};
ghost use Rattle.green_io.specs.Areas.{is_same};
ghost use Rattle.green_io.specs.declared.disk.Area.TheVariants.{Second};
ghost use Rattle.green_io.specs.Disk.{LeavesOnly, LeavesBut};
ghost use Rattle.green_io.specs.Outside.{HasRisen};
ghost use Rattle.edit_log.specs.Answers.{OnDone, OnFailed};
ghost use Rattle.edit_log.specs.Images.{IsOpen, IsPending, IsAppendable, IsMendable, HoldsEither};
ghost use Rattle.edit_log.specs.LogView.{is_pending};

use crate::pending::Pending;
use crate::phases::{close_gate, open_gate, stage};
use entry_codec::LogFormat;
use entry_codec::laws::body_says_length;
use febe_data::Text;
use green_io::Disk;
use std::marker::Model;

/// What came of an append or a mend.
#[derive(Clone, Copy, Debug, PartialEq, Eq)]
pub enum Appended {
    /// It is done, and stable.
    Ok,
    /// The disk failed, and the edit is pending: a crash may leave the log with it or without it.
    Disk,
}

/// A log whose bodies were read, at its end.
///
/// Contracts see where the end gate stands in the second area, whether an edit is pending, and the format in which the log
/// was read.
#[derive(Drop)]
pub struct EditLog {
    pub(crate) end: u64,
    pub(crate) pending: Pending,
    pub(crate) read: LogFormat,
}

impl Model for EditLog {
    ghost use Rattle.edit_log.specs.LogView.{LogView};

    ghost Value = { LogView };

    ghost view = { λ log. record { end = log.end; pending = log.pending; read = log.read } };
}

impl EditLog {
    /// Whether an edit is pending. It has to be mended before the next append.
    pub fn pending(&self) -> bool
        ensures { result ≡ is_pending self.now.pending }
    {
        self.pending != Pending::Nothing
    }

    /// The format in which the log was read when it was opened. Since then it has the new one.
    pub fn read_format(&self) -> LogFormat
        ensures { result ≡ self.now.read }
    {
        self.read
    }

    /// Puts one more body into the log. `bytes` is the body, in the new format, with a byte 0 behind it, which will be the
    /// next end gate.
    ///
    /// The body and that byte are made stable while the gate in front of them is still 0; then the gate is opened
    /// and made stable. So a crash leaves the log without the body or with all of it. It takes no memory.
    pub fn append<D: Disk>(&mut self, disk: &mut D, bytes: &Text) -> Appended
        ensures format { self.new.read ≡ self.old.read }
        ensures goes_on { OnDone result (self.new.pending ≡ self.old.pending) }
        ensures stops { OnFailed result (IsTrue (is_pending self.new.pending)) }
        ensures any_moment { (rows : List PlainLogged) (row : PlainLogged) → IsAppendable rows row bytes.now.items → IsOpen (D.state disk.old) self.old rows → LeavesOnly (D.state disk.old) (D.state disk.new) (HoldsEither rows row) }
        ensures done { (rows : List PlainLogged) (row : PlainLogged) → IsAppendable rows row bytes.now.items → IsOpen (D.state disk.old) self.old rows → OnDone result (IsOpen (D.state disk.new) self.new (rows ++ row ∷ [])) }
        ensures pending { (rows : List PlainLogged) (row : PlainLogged) → IsAppendable rows row bytes.now.items → IsOpen (D.state disk.old) self.old rows → OnFailed result (IsPending (D.state disk.new) self.new rows row) }
        ensures others { LeavesBut (is_same Second) (D.state disk.old) (D.state disk.new) }
        ensures never_falls { D.fault_count disk.old ≤ D.fault_count disk.new }
        ensures failed { OnFailed result (HasRisen (D.fault_count disk.old) (D.fault_count disk.new)) }
    {
        // So the end stays far below the greatest number.
        body_says_length();
        let bytes = bytes.as_slice();
        let Ok(()) = stage(disk, self.end, bytes) else {
            self.pending = Pending::Shut;
            return Appended::Disk;
        };
        let Ok(()) = open_gate(disk, self.end) else {
            self.pending = Pending::Gated;
            return Appended::Disk;
        };
        self.end = self.end.saturating_add(bytes.len() as u64);
        Appended::Ok
    }

    /// Takes a pending edit back: its gate is closed and made stable. Where the disk fails the edit stays pending.
    ///
    /// Where 1 was never written to the gate, it is a stable 0, and nothing is written. It takes no memory.
    pub fn mend<D: Disk>(&mut self, disk: &mut D) -> Appended
        ensures untouched { self.old.pending ≢ Pending.Gated → (result ≡ Appended.Ok) × (disk.new ≡ disk.old) }
        ensures format { self.new.read ≡ self.old.read }
        ensures mended { OnDone result (self.new.pending ≡ Pending.Nothing) }
        ensures stays { OnFailed result (self.new ≡ self.old) }
        ensures idle { self.old.pending ≡ Pending.Nothing → (result ≡ Appended.Ok) × (self.new ≡ self.old) }
        ensures any_moment { (rows : List PlainLogged) (row : PlainLogged) → IsMendable rows row → IsPending (D.state disk.old) self.old rows row → LeavesOnly (D.state disk.old) (D.state disk.new) (HoldsEither rows row) }
        ensures done { (rows : List PlainLogged) (row : PlainLogged) → IsMendable rows row → IsPending (D.state disk.old) self.old rows row → OnDone result (IsOpen (D.state disk.new) self.new rows) }
        ensures pending { (rows : List PlainLogged) (row : PlainLogged) → IsMendable rows row → IsPending (D.state disk.old) self.old rows row → OnFailed result (IsPending (D.state disk.new) self.new rows row) }
        ensures others { LeavesBut (is_same Second) (D.state disk.old) (D.state disk.new) }
        ensures never_falls { D.fault_count disk.old ≤ D.fault_count disk.new }
        ensures failed { OnFailed result (HasRisen (D.fault_count disk.old) (D.fault_count disk.new)) }
    {
        let Pending::Gated = self.pending else {
            self.pending = Pending::Nothing;
            return Appended::Ok;
        };
        let Ok(()) = close_gate(disk, self.end) else {
            return Appended::Disk;
        };
        self.pending = Pending::Nothing;
        Appended::Ok
    }
}
