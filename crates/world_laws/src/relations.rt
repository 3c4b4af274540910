//! Laws of the pairs and the diagonals that a relation gives.
ghost use Rattle.world_rules.specs.RelationLaws.{DiagonalsHavePairs, PairsAreOnDiagonals, PairsAreOnOneDiagonal, NothingStandsBefore, NothingStandsBehind, DiagonalsComeOnce, PairsInOrder, DiagonalsInOrder};

/// What is on a diagonal, from its first pair on as far as its length goes, are pairs of the list.
pub fn diagonals_have_pairs()
    ensures { DiagonalsHavePairs }
{}

/// Each pair is on some diagonal.
pub fn pairs_are_on_diagonals()
    ensures { PairsAreOnDiagonals }
{}

/// Two diagonals with one pair begin at the same pair and are as long.
pub fn pairs_are_on_one_diagonal()
    ensures { PairsAreOnOneDiagonal }
{}

/// No pair stands just before the first of a diagonal.
pub fn nothing_stands_before()
    ensures { NothingStandsBefore }
{}

/// No pair stands just behind the last of a diagonal, so none can be made longer, and no two
/// be joined.
pub fn nothing_stands_behind()
    ensures { NothingStandsBehind }
{}

/// Of pairs that are each given once, each diagonal comes once.
pub fn diagonals_come_once()
    ensures { DiagonalsComeOnce }
{}

/// Where the text rows of both documents ascend, the pairs of two specs come by left and then by
/// right, each once.
pub fn pairs_in_order()
    ensures { PairsInOrder }
{}

/// Their diagonals come by left and then by right, too.
pub fn diagonals_in_order()
    ensures { DiagonalsInOrder }
{}
