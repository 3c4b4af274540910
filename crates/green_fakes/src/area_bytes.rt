//! The bytes of an area.
ghost use Rattle.std.specs.Prelude.{◌≡◌, ◌≤◌, ℕ, ◌+◌, ◌-◌, List, [], ◌++◌, length, take, drop, replicate, IfOk, OnOk, OnErr};
ghost use Rattle.green_io.specs.Disk.{Torn, PartlyCut};
ghost use Rattle.green_fakes.specs.DiskView.{written_at};

use febe_data::{Generator, Memory};
use std::alloc::Global;
use std::marker::Model;

/// Bytes that are written in place.
#[derive(Drop)]
pub(crate) struct AreaBytes {
    held: Vec<u8>,
}

impl Model for AreaBytes {
    ghost use Rattle.std.specs.Prelude.{ℕ, List};

    ghost Value = { List ℕ };

    ghost view = { λ bytes. bytes.held.items };
}

impl AreaBytes {
    pub(crate) fn new(alloc: Global) -> AreaBytes
        ensures { result ≡ [] }
    {
        AreaBytes {
            held: Vec::new(alloc),
        }
    }

    pub(crate) fn as_slice(&self) -> &[u8]
        ensures { result.now ≡ self.now }
    {
        self.held.as_slice()
    }

    pub(crate) fn holding(alloc: Global, bytes: &[u8]) -> Result<AreaBytes, Memory>
        ensures { IfOk result (λ made. made ≡ bytes.now) }
    {
        Ok(AreaBytes {
            held: Vec::from_slice(alloc, bytes)?,
        })
    }

    pub(crate) fn copy(&self, alloc: Global) -> Result<AreaBytes, Memory>
        ensures { IfOk result (λ bytes. bytes ≡ self.now) }
    {
        AreaBytes::holding(alloc, self.held.as_slice())
    }

    /// Writes these bytes at `at`, with zeros between the end and them. Where there is no memory the bytes stay.
    pub(crate) fn write(&mut self, at: u64, bytes: &[u8]) -> Result<(), Memory>
        ensures written { OnOk result (self.new ≡ written_at at bytes.now self.old) }
        ensures stays { OnErr result (self.new ≡ self.old) }
    {
        let at = at as usize;
        let Some(end) = at.checked_add(bytes.len()) else {
            return Err(Memory);
        };
        self.grow(end)?;
        overwrite(self.held.as_mut_slice(), at, end, bytes);
        Ok(())
    }

    // Adds zeros at the end, up to this end.
    fn grow(&mut self, end: usize) -> Result<(), Memory>
        ensures grown { OnOk result (self.new ≡ self.old ++ replicate (end - length self.old) 0) }
        ensures stays { OnErr result (self.new ≡ self.old) }
    {
        if self.held.len() >= end {
            return Ok(());
        }
        self.held.resize(end, 0)?;
        Ok(())
    }

    /// Cuts the bytes to this length, where they are longer.
    pub(crate) fn cut(&mut self, length: u64)
        ensures { self.new ≡ take length self.old }
    {
        self.held.truncate(length as usize);
    }

    /// What a crash may leave of a write of so many bytes at `at`: any end from the old one to the write's, and any
    /// bytes where it would have written.
    pub(crate) fn tear(
        &mut self,
        at: u64,
        count: usize,
        generator: &mut Generator,
    ) -> Result<(), Memory>
        ensures { OnOk result (Torn at count self.old self.new) }
    {
        let old = self.held.len();
        let at = at as usize;
        let end = at.saturating_add(count);
        let length = old.saturating_add(draw(end.saturating_sub(old), generator));
        self.grow(length)?;
        fill(
            self.held.as_mut_slice(),
            at.min(old),
            end.min(length),
            generator,
        );
        Ok(())
    }

    /// What a crash may leave of a cut to this length: any end from there to the old one.
    pub(crate) fn tear_cut(&mut self, length: u64, generator: &mut Generator)
        ensures { PartlyCut length self.old self.new }
    {
        let old = self.held.len();
        let least = old.min(length as usize);
        self.held.truncate(least + draw(old - least, generator));
    }
}

// A number up to this one.
fn draw(most: usize, generator: &mut Generator) -> usize
    ensures { result ≤ most }
{
    ((generator.next() as u128) % (most as u128 + 1)) as usize
}

// Puts these bytes between two places.
fn overwrite(bytes: &mut [u8], from: usize, to: usize, others: &[u8])
    requires { (from + length others.now ≡ to) × (to ≤ length bytes.old) }
    ensures length { length bytes.new ≡ length bytes.old }
    ensures others { bytes.new ≡ take from bytes.old ++ others.now ++ drop to bytes.old }
{
    bytes[from..to].copy_from_slice(others);
}

// Puts other bytes between two places.
fn fill(bytes: &mut [u8], from: usize, to: usize, generator: &mut Generator)
    requires { (from ≤ to) × (to ≤ length bytes.old) }
    ensures length { length bytes.new ≡ length bytes.old }
    ensures others { (others : List ℕ) × (bytes.new ≡ take from bytes.old ++ others ++ drop to bytes.old) }
{
    draw_each(&mut bytes[from..to], generator);
}

// Other bytes for these.
fn draw_each(bytes: &mut [u8], generator: &mut Generator)
    ensures { length bytes.new ≡ length bytes.old }
{
    for byte in bytes.iter_mut() {
        *byte = (generator.next() % 256) as u8;
    }
}
