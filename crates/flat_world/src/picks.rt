//! What spec sets pick.
ghost use Rattle.std.specs.Prelude.{◌≡◌, ◌++◌, ◌&&◌, map, filter, IfOk, OnOk};
ghost use Rattle.tumbler.specs.Span.{end_of};
ghost use Rattle.febe_data.specs.Plain.{plain_spec};
ghost use Rattle.world_rules.specs.World.{is_text_of};
ghost use Rattle.world_rules.specs.Picking.{is_within, picked_text, addresses_of, picked_by_spec, picked_addresses};

use crate::flat::FlatWorld;
use febe_data::{List, Span, Spec, Tumbler};
use flat_rows::picks::{end_of, push_addresses};
use std::alloc::Global;
use world_rules::WorldError;

impl FlatWorld {
    /// Adds the I-addresses that one span of a document picks.
    pub(crate) fn push_span_addresses(
        &self,
        made: &mut List<Tumbler>,
        document: &Tumbler,
        span: &Span,
    ) -> Result<(), WorldError>
        ensures { OnOk result (made.new.items ≡ made.old.items ++ addresses_of (picked_text self.now.world document.now span.now)) }
    {
        let end = end_of(span)?;
        push_addresses(made, self.rows.as_slice(), document, &span.start, &end)?;
        Ok(())
    }

    /// Adds the I-addresses that one spec picks.
    #[tactic(auto, using(flat_rows::proofs::Picked::picked_steps))]
    fn push_spec_addresses(&self, made: &mut List<Tumbler>, spec: &Spec) -> Result<(), WorldError>
        ensures { OnOk result (made.new.items ≡ made.old.items ++ picked_by_spec self.now.world (plain_spec spec.now)) }
    {
        for span in spec.spans.as_slice() {
            self.push_span_addresses(made, &spec.document, span)?;
        }
        Ok(())
    }

    /// The I-addresses that the specs pick.
    #[tactic(auto, using(flat_rows::proofs::Picked::picked_steps))]
    pub(crate) fn picked_addresses(
        &self,
        alloc: Global,
        specs: &[Spec],
    ) -> Result<List<Tumbler>, WorldError>
        ensures { IfOk result (λ made. made.items ≡ picked_addresses self.now.world (map plain_spec specs.now)) }
    {
        let mut made = List::new(alloc);
        for spec in specs {
            self.push_spec_addresses(&mut made, spec)?;
        }
        Ok(made)
    }
}
