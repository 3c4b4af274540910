//! The law of trees on streams. It is a function that does nothing, whose contract says the law.
ghost use Rattle.page_trees.specs.Laws.{OneTrees};

/// Streams spell the nodes of one list of arenas, and one tables, at most.
pub fn one_trees()
    ensures { OneTrees }
{}
