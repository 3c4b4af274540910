//! The numbers of pages that may not be written.
ghost use Rattle.std.specs.Prelude.{◌≡◌, [], OnOk, OnErr};
ghost use Rattle.page_chains.specs.Chains.{is_in};
ghost use Rattle.page_chains.specs.inside.Walks.{HasOneMore};
ghost use Rattle.page_flush.specs.FlushView.{AreSpared, plain_streams, kept_pages};
ghost use Rattle.page_flush.specs.inside.Fresh.{HasAlso};

use crate::kept_stream::KeptStream;
use febe_data::Memory;
use std::alloc::Global;
use std::collections::BTreeSet;
use std::marker::Model;

/// The numbers of pages that a header which may be on the disk reaches. Contracts see them as a list.
#[derive(Drop)]
pub(crate) struct Spared {
    numbers: BTreeSet<u64>,
}

impl Model for Spared {
    ghost use Rattle.std.specs.Prelude.{List, ℕ};

    ghost Value = { List ℕ };

    ghost view = { λ spared. spared.numbers.keys };
}

impl Spared {
    /// No numbers.
    pub(crate) fn new(alloc: Global) -> Spared
        ensures { result ≡ [] }
    {
        Spared {
            numbers: BTreeSet::new(alloc),
        }
    }

    /// Whether the page of this number is spared.
    pub(crate) fn has(&self, number: u64) -> bool
        ensures { result ≡ is_in number self.now }
    {
        self.numbers.contains(&number)
    }

    /// Spares one page more.
    pub(crate) fn spare(&mut self, number: u64) -> Result<(), Memory>
        ensures ok { OnOk result (HasOneMore number self.old self.new) }
        ensures err { OnErr result (self.new ≡ self.old) }
    {
        self.numbers.insert(number)?;
        Ok(())
    }

    /// Spares these pages too. Where memory is refused, some of them may be spared.
    pub(crate) fn spare_all(&mut self, numbers: &[u64]) -> Result<(), Memory>
        ensures ok { OnOk result (HasAlso numbers.now self.old self.new) }
        ensures keeps { AreSpared self.old self.new }
    {
        for number in numbers {
            self.spare(*number)?;
        }
        Ok(())
    }

    /// Spares the pages of these streams too. Where memory is refused, some of them may be spared.
    pub(crate) fn spare_streams(&mut self, streams: &[KeptStream]) -> Result<(), Memory>
        ensures ok { OnOk result (HasAlso (kept_pages (plain_streams streams.now)) self.old self.new) }
        ensures keeps { AreSpared self.old self.new }
    {
        for stream in streams {
            self.spare_all(stream.numbers.as_slice())?;
        }
        Ok(())
    }
}
