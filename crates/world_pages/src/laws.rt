//! Laws of trees that stand for the world of a history of placed changes, on pages.
ghost use Rattle.world_pages.specs.Laws.{ContentsAreSound, EndsAreHeld, RootsAreThere, ShownIsCovered, StoredAreSound, TablesAreSound};

/// Each root that the tables name is a node of its arena.
pub fn roots_are_there()
    ensures { RootsAreThere }
{}

/// The tables are right by themselves: documents and links ascend, elders and homes are listed, and the ids of each home
/// are numbered.
pub fn tables_are_sound()
    ensures { TablesAreSound }
{}

/// The tree of contents has exactly the bytes that the documents have, and each document's tree shows bytes and links
/// that are there.
pub fn contents_are_sound()
    ensures { ContentsAreSound }
{}

/// The index of spans covers what each document shows.
pub fn shown_is_covered()
    ensures { ShownIsCovered }
{}

/// The index of each end has exactly the links' runs of that end.
pub fn ends_are_held()
    ensures { EndsAreHeld }
{}

/// So the pages of a store's trees are all that loading asks.
pub fn stored_are_sound()
    ensures { StoredAreSound }
{}
