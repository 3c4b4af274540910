//! The law of the grammar: a function that does nothing, whose contract says the law.
ghost use Rattle.febe_reply.specs.ReplyLaw.{OneReply};

/// No spelling begins another, and each spells one reply.
pub fn one_reply()
    ensures { OneReply }
{}
