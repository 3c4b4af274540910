//! A sink in memory.
ghost use Rattle.std.specs.Prelude.{◌≡◌, ◌≤◌, [], Some};
ghost use Rattle.green_fakes.specs.MemoryView.{WritesNext};

use febe_data::{List, Text};
use green_io::{Sink, WriteAnswer};
use std::alloc::Global;
use std::marker::Model;

/// A sink that keeps its bytes in memory.
///
/// Contracts see the bytes that were taken, the failing calls to come, and the number of faults.
#[derive(Drop)]
pub struct MemorySink {
    bytes: Text,
    failing: List<u64>,
    calls: u64,
    faults: u64,
}

impl Model for MemorySink {
    ghost use Rattle.green_fakes.specs.MemoryView.{SinkView};

    ghost Value = { SinkView };

    ghost view = { λ sink. record { taken = sink.bytes.items; calls = sink.calls; failing = sink.failing.items; faults = sink.faults } };
}

impl MemorySink {
    /// An empty sink, whose writes fail by `failing`, a list of numbers of calls. [`MemorySink::write_whole`]
    /// says how.
    pub fn new(alloc: Global, failing: List<u64>) -> MemorySink
        ensures { result ≡ record { taken = []; calls = 0; failing = failing.items; faults = 0 } }
    {
        MemorySink {
            bytes: List::new(alloc),
            failing,
            calls: 0,
            faults: 0,
        }
    }

    /// What [`Sink::write`] does here. The first call has the number 1, and a call whose number is listed fails.
    /// Another takes all the bytes, or fails where there is no memory to keep them.
    pub fn write_whole(&mut self, bytes: &[u8]) -> WriteAnswer
        ensures answer { WritesNext self.old self.new bytes.now result }
        ensures never_falls { self.old.faults ≤ self.new.faults }
    {
        self.calls = self.calls.saturating_add(1);
        if self.failing.as_slice().contains(&self.calls) {
            self.faults = self.faults.saturating_add(1);
            return WriteAnswer::Failed;
        }
        if self.bytes.extend_from_slice(bytes).is_err() {
            self.faults = self.faults.saturating_add(1);
            return WriteAnswer::Failed;
        }
        WriteAnswer::Took(bytes.len())
    }

    /// The bytes that were taken.
    pub fn bytes(&self) -> &[u8]
        ensures { result.now ≡ self.now.taken }
    {
        self.bytes.as_slice()
    }
}

impl Sink for MemorySink {
    ghost taken = { λ sink. Some sink.taken };

    ghost fault_count = { λ sink. sink.faults };

    fn faults(&self) -> u64 {
        self.faults
    }

    fn write(&mut self, bytes: &[u8]) -> WriteAnswer {
        self.write_whole(bytes)
    }
}
