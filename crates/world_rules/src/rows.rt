//! The rows of the world's lists.
ghost use Rattle.std.specs.Prelude.{◌≡◌, ◌&&◌, ◌≤◌, not};
ghost use Rattle.world_rules.specs.World.{part_number, is_text, is_text_of, is_link_of};
ghost use Rattle.world_rules.specs.Picking.{is_within};
ghost use Rattle.world_rules.specs.Edits.{moves_up, is_in_block};

use febe_data::{Mode, Tumbler};

/// The two parts of a document.
#[derive(Clone, Copy, Debug, PartialEq, Eq)]
pub enum Part {
    /// Its text, at the V-addresses `1.n`.
    Text,
    /// Its links, at the V-addresses `2.n`.
    Links,
}

impl Part {
    /// The place that the part's V-addresses begin with.
    pub fn number(self) -> u32
        ensures { result ≡ part_number self }
    {
        match self {
            Part::Text => 1,
            Part::Links => 2,
        }
    }

    /// Whether it is the text.
    pub fn is_text(self) -> bool
        ensures { result ≡ is_text self }
    {
        match self {
            Part::Text => true,
            Part::Links => false,
        }
    }
}

/// What stands at one V-address of a document.
#[derive(Debug, Drop)]
pub struct Row {
    pub document: Tumbler,
    pub part: Part,
    /// The n of the V-address, from 1.
    pub n: u32,
    /// The address of a content byte, or the id of a link.
    pub address: Tumbler,
}

impl Row {
    /// The same row.
    pub fn copy(&self) -> Row
        ensures { result ≡ self.now }
    {
        Row {
            document: self.document.copy(),
            part: self.part,
            n: self.n,
            address: self.address.copy(),
        }
    }

    /// Whether the row is of the document's text.
    pub fn is_text_of(&self, document: &Tumbler) -> bool
        ensures { result ≡ is_text_of document.now self.now }
    {
        self.part.is_text() && self.document == *document
    }

    /// Whether the row is of the document's links.
    pub fn is_link_of(&self, document: &Tumbler) -> bool
        ensures { result ≡ is_link_of document.now self.now }
    {
        !self.part.is_text() && self.document == *document
    }

    /// Whether the row's V-address is at the start or after it, and before the end.
    pub fn is_within(&self, start: &Tumbler, end: &Tumbler) -> bool
        ensures { result ≡ is_within start.now end.now self.now }
    {
        let address = [self.part.number(), self.n];
        let address = address.as_slice();
        start.places().cmp(&address).is_le() && address.cmp(&end.places()).is_lt()
    }

    /// Whether the row makes room for what comes in at `n` of the document's text.
    pub fn moves_up(&self, document: &Tumbler, n: u32) -> bool
        ensures { result ≡ moves_up document.now n self.now }
    {
        self.is_text_of(document) && n <= self.n
    }

    /// Whether the row is of the document's text, from `low` up to, but without, `high`.
    pub fn is_in_block(&self, document: &Tumbler, low: u32, high: u32) -> bool
        ensures { result ≡ is_in_block document.now low high self.now }
    {
        self.is_text_of(document) && low <= self.n && self.n < high
    }
}

/// A content byte and its address.
#[derive(Debug, Drop)]
pub struct ByteRow {
    pub address: Tumbler,
    pub byte: u8,
}

/// A document that a session has open.
#[derive(Debug, Drop)]
pub struct OpenRow {
    pub session: u64,
    pub document: Tumbler,
    pub mode: Mode,
}

/// The account that a session has set.
#[derive(Debug, Drop)]
pub struct AccountRow {
    pub session: u64,
    pub account: Tumbler,
}

/// How many entries of the history are a session's.
#[derive(Clone, Copy, Debug)]
pub struct SessionRow {
    pub session: u64,
    pub entries: u64,
}
