//! A reader of std as a source.
ghost use Rattle.std.specs.Prelude.{◌≡◌, ◌<◌, ◌≤◌, None, length};
ghost use Rattle.green_io.specs.Outside.{IsReadOutcome};

use crate::source::{ReadAnswer, Source};
use std::io::{ErrorKind, Read};
use std::marker::Model;

/// A source over a reader of std. It tells nothing of the bytes that are left.
///
/// Contracts see the number of faults alone.
#[derive(Drop)]
pub struct StdSource<R> {
    reader: R,
    faults: u64,
}

impl<R> Model for StdSource<R> {
    ghost use Rattle.std.specs.Prelude.{ℕ};

    ghost Value = { ℕ };

    ghost view = { λ source. source.faults };
}

impl<R: Read> StdSource<R> {
    /// A source over this reader, with no fault so far. It takes no memory.
    pub fn new(reader: R) -> StdSource<R>
        ensures { result ≡ 0 }
    {
        StdSource { reader, faults: 0 }
    }
}

impl<R: Read> Source for StdSource<R> {
    ghost left = { λ _. None };

    ghost fault_count = { λ source. source };

    fn faults(&self) -> u64 {
        self.faults
    }

    fn read(&mut self, into: &mut [u8]) -> ReadAnswer {
        let answer = read_uninterrupted(&mut self.reader, into);
        if answer == ReadAnswer::Failed {
            self.faults = self.faults.saturating_add(1);
        }
        answer
    }
}

// One read, tried again where it was interrupted.
fn read_uninterrupted<R: Read>(reader: &mut R, into: &mut [u8]) -> ReadAnswer
    requires { 0 < length into.old }
    ensures { IsReadOutcome result (R.remaining reader.old) (R.remaining reader.new) into.new }
{
    for _ in 0..u64::MAX {
        match reader.read(into) {
            Ok(0) => return ReadAnswer::End,
            Ok(n) => return ReadAnswer::Got(n),
            Err(error) => {
                if error.kind() != ErrorKind::Interrupted {
                    return ReadAnswer::Failed;
                }
            }
        }
    }
    ReadAnswer::Failed
}
