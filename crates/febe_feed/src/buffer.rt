//! Bytes that come at one end and go at the other.
ghost use Rattle.std.specs.Prelude.{◌≡◌, ◌≤◌, ◌++◌, [], length, drop, IfOk, OnOk, OnErr};

use febe_data::{List, Memory, Text};
use std::alloc::Global;
use std::marker::Model;

/// The bytes that are there, in order. Each is moved a bounded number of times while it is.
#[derive(Debug, Drop)]
pub(crate) struct Buffer {
    buffer: Text,
    /// How many bytes of the buffer have gone.
    begin: usize,
}

impl Model for Buffer {
    ghost use Rattle.std.specs.Prelude.{◌≤◌, length, drop};
    ghost use Rattle.febe_feed.specs.inside.HeldView.{HeldView};

    ghost Value = { HeldView };

    ghost view = { λ h. record { bytes = drop h.begin h.buffer.items } };

    ghost invariant = { λ h. h.begin ≤ length h.buffer.items };
}

impl Buffer {
    /// No bytes. It takes no memory.
    pub(crate) fn new(alloc: Global) -> Buffer
        ensures { result.bytes ≡ [] }
    {
        Buffer {
            buffer: List::new(alloc),
            begin: 0,
        }
    }

    /// The bytes that are there.
    pub(crate) fn as_slice(&self) -> &[u8]
        ensures { result.now ≡ self.now.bytes }
    {
        self.buffer.as_slice().split_at(self.begin).1
    }

    /// Adds a piece at the end, or leaves all as it was.
    pub(crate) fn push(&mut self, alloc: Global, piece: &[u8]) -> Result<(), Memory>
        ensures ok { OnOk result (self.new.bytes ≡ self.old.bytes ++ piece.now) }
        ensures err { OnErr result (self.new ≡ self.old) }
    {
        // What has gone pays for moving what is there.
        if self.begin > 0 && self.begin >= self.buffer.len() - self.begin {
            let fresh = joined(alloc, self.as_slice(), piece)?;
            self.buffer = fresh;
            self.begin = 0;
            return Ok(());
        }
        self.buffer.extend_from_slice(piece)
    }

    /// Lets the first bytes go.
    pub(crate) fn pass(&mut self, count: usize)
        requires { count ≤ length self.old.bytes }
        ensures { self.new.bytes ≡ drop count self.old.bytes }
    {
        let left = self.as_slice().len() - count;
        self.begin = self.buffer.len() - left;
    }
}

/// One list of the bytes of both.
fn joined(alloc: Global, prefix: &[u8], back: &[u8]) -> Result<Text, Memory>
    ensures { IfOk result (λ text. text.items ≡ prefix.now ++ back.now) }
{
    let mut joined = List::new(alloc);
    joined.extend_from_slice(prefix)?;
    joined.extend_from_slice(back)?;
    Ok(joined)
}
