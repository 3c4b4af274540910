//! What the tables have.

use febe_data::Run;
use tumbler::{List, Tumbler};

/// A document, with the root of its tree.
#[derive(Clone, Copy, Debug)]
pub struct TableDocument {
    pub document: Tumbler,
    /// The number of the root's node in the arena of all documents.
    pub root: u64,
    /// How many bytes were ever put into the document.
    pub content: u32,
}

/// A link, with the runs that its three ends show.
#[derive(Debug, Drop)]
pub struct TableLink {
    pub id: Tumbler,
    pub home: Tumbler,
    pub from: List<Run>,
    pub to: List<Run>,
    pub three: List<Run>,
}

/// The tables beside the trees: documents and links, and the numbers of the nodes that are the other five trees' roots.
#[derive(Debug, Drop)]
pub struct Tables {
    pub documents: List<TableDocument>,
    pub granfilade: u64,
    pub spanfilade: u64,
    pub from: u64,
    pub to: u64,
    pub three: u64,
    pub links: List<TableLink>,
}
