//! Trees and tables as they were read.

use enfilade_core::{Arena, ContentPlane, KeyPlane, TextPlane};
use page_tables::Tables;

/// The arenas of six trees and of the documents, and the tables that name the trees' roots.
#[derive(Drop)]
pub struct PageTrees {
    pub granfilade: Arena<ContentPlane>,
    /// The trees of all documents.
    pub poom: Arena<TextPlane>,
    pub spanfilade: Arena<KeyPlane>,
    /// The indexes of the links' three ends.
    pub from: Arena<KeyPlane>,
    pub to: Arena<KeyPlane>,
    pub three: Arena<KeyPlane>,
    pub tables: Tables,
    /// How many entries of the log the trees stand for.
    pub position: u64,
}
