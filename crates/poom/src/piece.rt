//! Pieces of content.
ghost use Rattle.std.specs.Prelude.{◌≡◌};

use tumbler::Tumbler;

/// Content bytes that follow each other in one document's content, or links that were made in one document
/// one after another.
///
/// In a text it stands for bytes, among the links of a document for link ids.
#[derive(Debug, Drop)]
pub struct Piece {
    /// The document into which the bytes were first put, or in which the links were made.
    pub document: Tumbler,
    /// Which of that document's bytes or links comes first. They are counted from 1.
    pub first: u32,
    /// How many there are.
    pub count: u32,
}

impl Piece {
    /// The same piece.
    pub fn copy(&self) -> Piece
        ensures { result ≡ self.now }
    {
        Piece {
            document: self.document.copy(),
            first: self.first,
            count: self.count,
        }
    }
}
