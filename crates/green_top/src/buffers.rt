//! A source and a sink in memory.
ghost use Rattle.std.specs.Prelude.{◌≡◌, [], Some};

use febe_data::{List, Text};
use green_io::{ReadAnswer, Sink, Source, WriteAnswer};
use std::alloc::Global;
use std::marker::Model;

/// A source of bytes that are all there before the first read. No read of it fails.
#[derive(Drop)]
pub(crate) struct ReadySource {
    bytes: Text,
    /// How many bytes were given.
    at: usize,
}

impl Model for ReadySource {
    ghost use Rattle.std.specs.Prelude.{ℕ, List, ◌≤◌, drop, length};

    ghost Value = { List ℕ };

    ghost view = { λ source. drop source.at source.bytes.items };

    ghost invariant = { λ source. source.at ≤ length source.bytes.items };
}

impl ReadySource {
    /// A source of these bytes.
    pub(crate) fn new(bytes: Text) -> ReadySource
        ensures { result ≡ bytes.items }
    {
        ReadySource { bytes, at: 0 }
    }
}

impl Source for ReadySource {
    ghost left = { λ source. Some source };

    ghost fault_count = { λ _. 0 };

    fn faults(&self) -> u64 {
        0
    }

    fn read(&mut self, into: &mut [u8]) -> ReadAnswer {
        let (_, rest) = self.bytes.as_slice().split_at(self.at);
        let count = rest.len().min(into.len());
        if count == 0 {
            return ReadAnswer::End;
        }
        into[..count].copy_from_slice(rest.split_at(count).0);
        self.at += count;
        ReadAnswer::Got(count)
    }
}

/// A sink that keeps what it takes. A write fails where there is no memory to keep its bytes.
#[derive(Drop)]
pub(crate) struct KeptSink {
    bytes: Text,
    faults: u64,
}

impl Model for KeptSink {
    ghost use Rattle.green_top.specs.inside.Kept.{KeptView};

    ghost Value = { KeptView };

    ghost view = { λ sink. record { taken = sink.bytes.items; faults = sink.faults } };
}

impl KeptSink {
    /// A sink that has taken nothing.
    pub(crate) fn new(alloc: Global) -> KeptSink
        ensures { result ≡ record { taken = []; faults = 0 } }
    {
        KeptSink {
            bytes: List::new(alloc),
            faults: 0,
        }
    }

    /// The bytes that were taken.
    pub(crate) fn bytes(&self) -> &[u8]
        ensures { result.now ≡ self.now.taken }
    {
        self.bytes.as_slice()
    }
}

impl Sink for KeptSink {
    ghost taken = { λ sink. Some sink.taken };

    ghost fault_count = { λ sink. sink.faults };

    fn faults(&self) -> u64 {
        self.faults
    }

    fn write(&mut self, bytes: &[u8]) -> WriteAnswer {
        if self.bytes.extend_from_slice(bytes).is_err() {
            self.faults = self.faults.saturating_add(1);
            return WriteAnswer::Failed;
        }
        WriteAnswer::Took(bytes.len())
    }
}
