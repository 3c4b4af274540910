//! The laws of the grammar. Each is a function that does nothing, whose contract says the law.
ghost use Rattle.febe_wire.specs.Laws.{OneForm, OneNumber, OneSpans, OneTumbler};

/// No spelling begins another, and each spells one request.
pub fn one_form()
    ensures { OneForm }
{}

/// The same for numbers.
pub fn one_number()
    ensures { OneNumber }
{}

/// The same for lists of spans.
pub fn one_spans()
    ensures { OneSpans }
{}

/// The same for tumblers.
pub fn one_tumbler()
    ensures { OneTumbler }
{}
