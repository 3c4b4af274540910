//! A writer of std as a sink.
ghost use Rattle.std.specs.Prelude.{◌≡◌, ◌<◌, ◌≤◌, None, length};
ghost use Rattle.std.specs.Io.KnownBytes.{Keeps};
ghost use Rattle.green_io.specs.Outside.{IsWriteOutcome};

use crate::sink::{Sink, WriteAnswer};
use std::io::{ErrorKind, Write};
use std::marker::Model;

/// A sink over a writer of std. It tells nothing of the bytes that were taken.
///
/// What it takes it flushes at once, so that a reader who waits for the bytes sees them. A flush that
/// fails is a fault as a write that fails is, and so is a write that takes nothing. Contracts see the
/// number of faults alone.
#[derive(Drop)]
pub struct StdSink<W> {
    writer: W,
    faults: u64,
}

impl<W> Model for StdSink<W> {
    ghost use Rattle.std.specs.Prelude.{ℕ};

    ghost Value = { ℕ };

    ghost view = { λ sink. sink.faults };
}

impl<W: Write> StdSink<W> {
    /// A sink over this writer, with no fault so far. It takes no memory.
    pub fn new(writer: W) -> StdSink<W>
        ensures { result ≡ 0 }
    {
        StdSink { writer, faults: 0 }
    }
}

impl<W: Write> Sink for StdSink<W> {
    ghost taken = { λ _. None };

    ghost fault_count = { λ sink. sink };

    fn faults(&self) -> u64 {
        self.faults
    }

    fn write(&mut self, bytes: &[u8]) -> WriteAnswer {
        let answer = write_uninterrupted(&mut self.writer, bytes);
        if answer == WriteAnswer::Failed || !flush_uninterrupted(&mut self.writer) {
            self.faults = self.faults.saturating_add(1);
            return WriteAnswer::Failed;
        }
        answer
    }
}

// One write, tried again where it was interrupted. A writer that takes nothing of a piece has failed.
fn write_uninterrupted<W: Write>(writer: &mut W, bytes: &[u8]) -> WriteAnswer
    ensures { IsWriteOutcome result (W.contents writer.old) (W.contents writer.new) bytes.now }
{
    for _ in 0..u64::MAX {
        match writer.write(bytes) {
            Ok(0) => return WriteAnswer::Failed,
            Ok(n) => return WriteAnswer::Took(n),
            Err(error) => {
                if error.kind() != ErrorKind::Interrupted {
                    return WriteAnswer::Failed;
                }
            }
        }
    }
    WriteAnswer::Failed
}

// Flushes the writer, and tries again where that was interrupted. It says whether the flush succeeded.
fn flush_uninterrupted<W: Write>(writer: &mut W) -> bool
    ensures { Keeps (W.contents writer.old) (W.contents writer.new) }
{
    for _ in 0..u64::MAX {
        match writer.flush() {
            Ok(()) => return true,
            Err(error) => {
                if error.kind() != ErrorKind::Interrupted {
                    return false;
                }
            }
        }
    }
    false
}
