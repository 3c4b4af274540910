//! What the keys are that are met. The law is a function that does nothing, whose contract says it.
ghost use Rattle.std.specs.Prelude.{ℕ, List};
ghost use Rattle.tumbler.specs.declared.span.Span.{Span};
ghost use Rattle.enfilade_core.specs.declared.tree.Row.{Row};
ghost use Rattle.spanfilade.specs.Laws.{KeysMetExactly};

/// The keys that are met ascend, each stands there once, and they are exactly those of the rows that meet a span.
pub fn keys_met_exactly()
    ensures { (spans : List Span) (rows : List (Row (List ℕ))) → KeysMetExactly spans rows }
{}
