//! Where two specs pick the same content.
ghost use Rattle.std.specs.Prelude.{◌≡◌, ◌++◌, ◌∷◌, [], false, length, filter, All, IfOk, OnOk};
ghost use Rattle.std.specs.List.{list_any};
ghost use Rattle.febe_data.specs.Plain.{plain_spec};
ghost use Rattle.febe_data.specs.Validity.{IsDiagonal};
ghost use Rattle.flat_rows.specs.PairIndex.{AddsPlace, pairs_among, pairs_with, places_in, IsPlaceIndex, IsPairSet};
ghost use Rattle.world_rules.specs.Picking.{picks, is_picked_by};
ghost use Rattle.world_rules.specs.Refusals.{is_bad_span};
ghost use Rattle.world_rules.specs.Relation.{next_pair, is_start, reach, diagonal_from, diagonals_of, diagonals};

use crate::flat::FlatWorld;
use febe_data::{Diagonal, List, Spec};
use flat_rows::relation::{diagonals_of, pairs_of};
use std::alloc::Global;
use world_rules::WorldError;

impl FlatWorld {
    /// Where the two specs pick the same content.
    #[tactic(auto)]
    pub(crate) fn shared_diagonals(
        &self,
        alloc: Global,
        left: &Spec,
        right: &Spec,
    ) -> Result<List<Diagonal>, WorldError>
        requires left { list_any is_bad_span (plain_spec left.now).spans ≡ false }
        requires right { list_any is_bad_span (plain_spec right.now).spans ≡ false }
        ensures value { IfOk result (λ made. made.items ≡ diagonals self.now.world (plain_spec left.now) (plain_spec right.now)) }
        ensures valid { IfOk result (λ made. All IsDiagonal made.items) }
    {
        let pairs = pairs_of(alloc, self.rows.as_slice(), left, right)?;
        diagonals_of(alloc, pairs.as_slice())
    }
}
