//! A source in memory.
ghost use Rattle.std.specs.Prelude.{◌≡◌, ◌≤◌, ◌++◌, Some, length, take, drop};
ghost use Rattle.green_fakes.specs.MemoryView.{piece_within, read_answer, read_count, after_read};

use febe_data::{List, Text};
use green_io::{ReadAnswer, Source};
use std::marker::Model;

/// A source that gives bytes from memory.
///
/// Contracts see the bytes that are left, the pieces and the failing calls to come, and the number of faults.
#[derive(Drop)]
pub struct MemorySource {
    bytes: Text,
    /// How many bytes were given.
    at: usize,
    pieces: List<u32>,
    /// How many reads have given bytes by a piece.
    reads: usize,
    failing: List<u64>,
    calls: u64,
    faults: u64,
}

impl Model for MemorySource {
    ghost use Rattle.std.specs.Prelude.{◌≤◌, drop, length};
    ghost use Rattle.green_fakes.specs.MemoryView.{SourceView};

    ghost Value = { SourceView };

    ghost view = { λ source. record { left = drop source.at source.bytes.items; pieces = drop source.reads source.pieces.items; calls = source.calls; failing = source.failing.items; faults = source.faults } };

    ghost invariant = { λ source. source.at ≤ length source.bytes.items };
}

impl MemorySource {
    /// A source of these bytes, whose reads are cut by `pieces` and fail by `failing`, a list of numbers of calls.
    /// [`MemorySource::read_piece`] says how.
    pub fn new(bytes: Text, pieces: List<u32>, failing: List<u64>) -> MemorySource
        ensures { result ≡ record { left = bytes.items; pieces = pieces.items; calls = 0; failing = failing.items; faults = 0 } }
    {
        MemorySource {
            bytes,
            at: 0,
            pieces,
            reads: 0,
            failing,
            calls: 0,
            faults: 0,
        }
    }

    /// What [`Source::read`] does here. The first call has the number 1, and a call whose number is listed fails
    /// without a byte. Another gives as many bytes as are left and find room, but no more than its piece.
    pub fn read_piece(&mut self, into: &mut [u8]) -> ReadAnswer
        ensures answer { result ≡ read_answer self.old (length into.old) }
        ensures source { self.new ≡ after_read self.old (length into.old) }
        ensures bytes { let count = read_count self.old (length into.old) in into.new ≡ take count self.old.left ++ drop count into.old }
        ensures never_falls { self.old.faults ≤ self.new.faults }
    {
        self.calls = self.calls.saturating_add(1);
        if self.failing.as_slice().contains(&self.calls) {
            self.faults = self.faults.saturating_add(1);
            return ReadAnswer::Failed;
        }
        let most = next_piece(self.pieces.as_slice(), &mut self.reads, into.len());
        let (_, rest) = self.bytes.as_slice().split_at(self.at);
        let count = rest.len().min(most);
        if count == 0 {
            return ReadAnswer::End;
        }
        into[..count].copy_from_slice(rest.split_at(count).0);
        self.at += count;
        ReadAnswer::Got(count)
    }
}

/// How many bytes the next read gives at most, where there is room for so many. Its piece is used up.
fn next_piece(pieces: &[u32], reads: &mut usize, room: usize) -> usize
    ensures most { result ≡ piece_within (drop reads.old pieces.now) room }
    ensures rest { drop reads.new pieces.now ≡ drop 1 (drop reads.old pieces.now) }
{
    let Some(piece) = pieces.get(*reads) else {
        return room;
    };
    *reads = reads.saturating_add(1);
    room.min((*piece as usize).max(1))
}

impl Source for MemorySource {
    ghost left = { λ source. Some source.left };

    ghost fault_count = { λ source. source.faults };

    fn faults(&self) -> u64 {
        self.faults
    }

    fn read(&mut self, into: &mut [u8]) -> ReadAnswer {
        self.read_piece(into)
    }
}
