//! The rows of the world's links.
ghost use Rattle.std.specs.Prelude.{◌≡◌};
ghost use Rattle.world_rules.specs.Ends.{runs_of_end};
ghost use Rattle.flat_rows.specs.PlainLink.{plain_link};

use febe_data::{List, Run, Tumbler};
use world_rules::End;

/// A link.
#[derive(Debug, Drop)]
pub struct LinkRow {
    pub id: Tumbler,
    /// The document that it was made in.
    pub home: Tumbler,
    pub from: List<Run>,
    pub to: List<Run>,
    pub three: List<Run>,
}

impl LinkRow {
    /// The runs of one end.
    pub fn runs(&self, end: End) -> &[Run]
        ensures { result.now ≡ runs_of_end end (plain_link self.now) }
    {
        match end {
            End::From => self.from.as_slice(),
            End::To => self.to.as_slice(),
            End::Three => self.three.as_slice(),
        }
    }
}
