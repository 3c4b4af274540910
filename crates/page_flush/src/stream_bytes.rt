//! What a save is given of a stream.

use febe_data::Text;

/// What a save is given of a stream.
#[derive(Drop)]
pub enum StreamBytes {
    /// All its bytes.
    Anew(Text),
    /// What comes behind the bytes that it had when it was last saved.
    More(Text),
}
