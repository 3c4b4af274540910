//! The laws of scanning. Each is a function that does nothing, whose contract says the law.
ghost use Rattle.febe_fields.specs.Fields.{ScansFields, NeverStuck};

/// The scan of fields takes what spells them, and nothing else.
pub fn scans_fields()
    ensures { ScansFields }
{}

/// Each state of a scan is ended by some bytes.
pub fn never_stuck()
    ensures { NeverStuck }
{}
