//! The runs of content that spec sets name.
ghost use Rattle.std.specs.Prelude.{◌≡◌, ◌++◌, map, IfOk, OnOk};
ghost use Rattle.febe_data.specs.Plain.{plain_spec};
ghost use Rattle.world_rules.specs.Picking.{content_of, number_of, is_next_byte, stretches, stretches_on, run_of, runs_of_span, runs_of_spec, runs_of};

use crate::flat::FlatWorld;
use febe_data::{List, Run, Span, Spec, Tumbler};
use flat_rows::runs::push_runs;
use std::alloc::Global;
use world_rules::WorldError;

impl FlatWorld {
    /// Adds the runs that one span of a document picks.
    fn push_span_runs(
        &self,
        alloc: Global,
        made: &mut List<Run>,
        document: &Tumbler,
        span: &Span,
    ) -> Result<(), WorldError>
        ensures { OnOk result (made.new.items ≡ made.old.items ++ runs_of_span self.now.world document.now span.now) }
    {
        let mut addresses = List::new(alloc);
        self.push_span_addresses(&mut addresses, document, span)?;
        push_runs(alloc, made, document, addresses.as_slice())
    }

    /// Adds the runs of one spec.
    #[tactic(auto, using(flat_rows::proofs::Picked::picked_steps))]
    fn push_spec_runs(
        &self,
        alloc: Global,
        made: &mut List<Run>,
        spec: &Spec,
    ) -> Result<(), WorldError>
        ensures { OnOk result (made.new.items ≡ made.old.items ++ runs_of_spec self.now.world (plain_spec spec.now)) }
    {
        for span in spec.spans.as_slice() {
            self.push_span_runs(alloc, made, &spec.document, span)?;
        }
        Ok(())
    }

    /// The runs of the specs.
    #[tactic(auto, using(flat_rows::proofs::Picked::picked_steps))]
    pub(crate) fn picked_runs(&self, alloc: Global, specs: &[Spec]) -> Result<List<Run>, WorldError>
        ensures { IfOk result (λ made. made.items ≡ runs_of self.now.world (map plain_spec specs.now)) }
    {
        let mut made = List::new(alloc);
        for spec in specs {
            self.push_spec_runs(alloc, &mut made, spec)?;
        }
        Ok(made)
    }
}
