//! Trees as they are loaded.
ghost use Rattle.std.specs.Prelude.{◌≡◌};

use febe_data::Text;
use granfilade::Granfilade;
use page_trees::PageTrees;
use poom::Poom;
use spanfilade::Spanfilade;

/// The trees of a world, with the bytes of the tables beside them.
#[derive(Drop)]
pub struct Trees {
    pub granfilade: Granfilade,
    /// The trees of all documents.
    pub poom: Poom,
    pub spanfilade: Spanfilade,
    /// The indexes of the links' three ends.
    pub from: Spanfilade,
    pub to: Spanfilade,
    pub three: Spanfilade,
    /// Documents, roots and links, as `write_tables` writes them.
    pub tables: Text,
}
