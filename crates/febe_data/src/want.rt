//! Which links are looked for.
ghost use Rattle.std.specs.Prelude.{◌≡◌, IfOk};
ghost use Rattle.febe_data.specs.Plain.{plain_want};

use crate::spec::{Spec, clone_spans, clone_specs};
use std::alloc::Global;
use tumbler::{List, Memory, Span};

/// What the links that are looked for have to meet: in their home, and in each of their three ends. A list without
/// items asks for nothing there.
#[derive(Debug, Drop)]
pub struct Want {
    /// Spans of documents, in one of which the link's home lies.
    pub homes: List<Span>,
    pub from: List<Spec>,
    pub to: List<Spec>,
    pub three: List<Spec>,
}

impl Want {
    /// The same, in memory of its own.
    pub fn try_clone(&self, alloc: Global) -> Result<Want, Memory>
        ensures { IfOk result (λ copy. plain_want copy ≡ plain_want self.now) }
    {
        Ok(Want {
            homes: clone_spans(alloc, self.homes.as_slice())?,
            from: clone_specs(alloc, self.from.as_slice())?,
            to: clone_specs(alloc, self.to.as_slice())?,
            three: clone_specs(alloc, self.three.as_slice())?,
        })
    }
}
