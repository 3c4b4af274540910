//! Laws of who may read what, and that nothing else shows in what a session is answered.
ghost use Rattle.world_rules.specs.Isolated.{Isolates, LegalStepsIsolate, SameReplies};
ghost use Rattle.world_rules.specs.Order.{AskedInOrder};
ghost use Rattle.world_rules.specs.Published.{NewIsPrivate, PublishedByEntry, ReadsByAccount};

/// In the world of a history of placed changes a session may read a document exactly where that is published, or of the
/// account that the session has set.
pub fn reads_by_account()
    ensures { ReadsByAccount }
{}

/// A document is published exactly where some entry of the history published it: there is no way back.
pub fn published_by_entry()
    ensures { PublishedByEntry }
{}

/// In the world of a history of placed changes no document that is yet to come is published, so no version is either when
/// it comes, whatever its source.
pub fn new_is_private()
    ensures { NewIsPrivate }
{}

/// The tests of each request come in the one order of refusals.
pub fn asked_in_order()
    ensures { AskedInOrder }
{}

/// Where a session sees the same in two worlds, a query that the one answers the other answers too, and in the same way.
pub fn isolation()
    ensures { Isolates }
{}

/// So each legal step gives a query the answer of every other history in which the session sees the same and nothing is
/// refused, or there was no memory.
pub fn legal_steps_isolate()
    ensures { LegalStepsIsolate }
{}

/// Two legal steps of a query, after two such histories, give the same reply, or there was no memory in one of them.
pub fn same_replies()
    ensures { SameReplies }
{}
