//! Where two documents show the same content.
ghost use Rattle.std.specs.Prelude.{◌≡◌, true, false, length, List as ListOf, All, IfOk, IfSome, IfNone};
ghost use Rattle.std.specs.List.{list_any};
ghost use Rattle.febe_data.specs.Plain.{plain_spec};
ghost use Rattle.febe_data.specs.Validity.{IsDiagonal};
ghost use Rattle.febe_data.specs.declared.run.Diagonal.{Diagonal as DiagonalOf};
ghost use Rattle.poom_compare.specs.Shared.{IsCompared, AreValid};
ghost use Rattle.world_rules.specs.FlatView.{FlatView};
ghost use Rattle.world_rules.specs.Refusals.{is_bad_span, is_too_long};
ghost use Rattle.world_rules.specs.Relation.{diagonals};
ghost use Rattle.tree_world.specs.Standing.{Stands};

use crate::world::TreeWorld;
use febe_data::{Diagonal, List, Spec};
use poom_compare::{Compared, diagonals};
use std::alloc::Global;
use world_rules::WorldError;

/// The diagonals, where a reply has room for them.
fn listed(found: Compared) -> Option<List<Diagonal>>
    ensures value { (wanted : ListOf DiagonalOf) → IsCompared wanted found → IfSome result (λ made. made.items ≡ wanted) }
    ensures few { (wanted : ListOf DiagonalOf) → IsCompared wanted found → IfSome result (λ made. is_too_long (length made.items) ≡ false) }
    ensures many { (wanted : ListOf DiagonalOf) → IsCompared wanted found → IfNone result (is_too_long (length wanted) ≡ true) }
    ensures valid { AreValid found → IfSome result (λ made. All IsDiagonal made.items) }
{
    match found {
        Compared::Diagonals(made) => Some(made),
        Compared::TooMany => None,
    }
}

impl TreeWorld {
    /// Where the two specs pick the same content.
    pub(crate) fn relation(
        &self,
        alloc: Global,
        left: &Spec,
        right: &Spec,
    ) -> Result<Option<List<Diagonal>>, WorldError>
        requires left { list_any is_bad_span (plain_spec left.now).spans ≡ false }
        requires right { list_any is_bad_span (plain_spec right.now).spans ≡ false }
        ensures value { (view : FlatView) → Stands self.now view → IfOk result (λ found. IfSome found (λ made. made.items ≡ diagonals view.world (plain_spec left.now) (plain_spec right.now))) }
        ensures valid { IfOk result (λ found. IfSome found (λ made. All IsDiagonal made.items)) }
        ensures few { IfOk result (λ found. IfSome found (λ made. is_too_long (length made.items) ≡ false)) }
        ensures many { (view : FlatView) → Stands self.now view → IfOk result (λ found. IfNone found (is_too_long (length (diagonals view.world (plain_spec left.now) (plain_spec right.now))) ≡ true)) }
    {
        let Some(left_root) = self.documents.root(&left.document) else {
            return Ok(Some(List::new(alloc)));
        };
        let Some(right_root) = self.documents.root(&right.document) else {
            return Ok(Some(List::new(alloc)));
        };
        let found = diagonals(
            &self.pooms,
            left_root,
            &left.spans,
            right_root,
            &right.spans,
        )?;
        Ok(listed(found))
    }
}
