//! The numbers of pages that were met.
ghost use Rattle.std.specs.Prelude.{◌≡◌, not, [], IfOk};
ghost use Rattle.page_chains.specs.Chains.{is_in};
ghost use Rattle.page_chains.specs.inside.Walks.{HasOneMore};

use febe_data::Memory;
use std::alloc::Global;
use std::collections::BTreeSet;
use std::marker::Model;

/// The numbers of pages that were met. Contracts see them as a list in which each stands once.
#[derive(Drop)]
pub(crate) struct Met {
    numbers: BTreeSet<u64>,
}

impl Model for Met {
    ghost use Rattle.std.specs.Prelude.{List, ℕ};

    ghost Value = { List ℕ };

    ghost view = { λ met. met.numbers.keys };
}

impl Met {
    pub(crate) fn new(alloc: Global) -> Met
        ensures { result ≡ [] }
    {
        Met {
            numbers: BTreeSet::new(alloc),
        }
    }

    /// Adds a number, and says whether it was not met before.
    pub(crate) fn meet(&mut self, number: u64) -> Result<bool, Memory>
        ensures fresh { IfOk result (λ fresh. is_in number self.old ≡ not fresh) }
        ensures more { IfOk result (λ fresh. HasOneMore number self.old self.new) }
    {
        let fresh = self.numbers.insert(number)?;
        Ok(fresh)
    }
}
