//! What the spans of an end are that meet a span. The law is a function that does nothing, whose contract says it.
ghost use Rattle.std.specs.Prelude.{ℕ, List};
ghost use Rattle.tumbler.specs.declared.span.Span.{Span};
ghost use Rattle.world_rules.specs.World.{LinkRow};
ghost use Rattle.links.specs.Laws.{SpansMetExactly};

/// The spans of an end that meet a span ascend, each stands there once, and they are exactly those of the links' runs
/// that meet it.
pub fn spans_met_exactly()
    ensures { (end : ℕ) (span : Span) (links : List LinkRow) → SpansMetExactly end span links }
{}
