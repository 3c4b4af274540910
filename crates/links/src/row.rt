//! Links, and what is asked of them.

use enfilade_core::TreeMark;
use febe_data::Run;
use tumbler::{List, Span, Tumbler};

/// A link: its id, and the runs of content at its three ends.
#[derive(Debug, Drop)]
pub struct LinkRow {
    pub id: Tumbler,
    /// The document that it was made in.
    pub home: Tumbler,
    pub from: List<Run>,
    pub to: List<Run>,
    pub three: List<Run>,
}

/// What the owner of a table of links keeps to go back: a mark of each index.
#[derive(Clone, Copy, Debug, PartialEq, Eq)]
pub struct LinkMarks {
    pub from: TreeMark,
    pub to: TreeMark,
    pub three: TreeMark,
}

/// The spans of content that each end has to meet. An end without a list may be any; a list without spans is
/// met by no end.
#[derive(Debug, Drop)]
pub struct WantedEnds {
    pub from: Option<List<Span>>,
    pub to: Option<List<Span>>,
    pub three: Option<List<Span>>,
}
