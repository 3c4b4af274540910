//! Laws: what is compared is the relation of any world whose documents show the same texts, and a reply can have
//! each diagonal. They are functions that do nothing, whose contracts say the laws.
ghost use Rattle.poom_compare.specs.Shared.{IsRelationOfWorld, DiagonalsAreValid};

/// The diagonals of two documents' texts are the relation between the two in the world.
pub fn relation_of_world()
    ensures { IsRelationOfWorld }
{}

/// Positions of diagonals count from 1, and positions and lengths are below their bound.
pub fn diagonals_are_valid()
    ensures { DiagonalsAreValid }
{}
