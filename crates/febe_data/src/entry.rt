//! The entries of the history.
ghost use Rattle.std.specs.Prelude.{◌≡◌, IfOk};
ghost use Rattle.febe_data.specs.Plain.{plain_change, plain_entry};

use crate::access::Mode;
use crate::spec::{Spec, clone_specs};
use std::alloc::Global;
use tumbler::{List, Memory, Span, Text, Tumbler};

/// What an entry changed.
#[derive(Debug)]
pub enum Change {
    /// The back end began: all sessions of before are gone.
    Restart,
    /// A session began.
    Begin,
    /// A session ended.
    End,
    /// The session set its account.
    Account {
        account: Tumbler,
    },
    /// The session opened a document.
    Open {
        document: Tumbler,
        mode: Mode,
    },
    /// The session closed a document.
    Close {
        document: Tumbler,
    },
    /// The session made a document.
    Create {
        document: Tumbler,
    },
    /// The session made a version of a document that it has open.
    Version {
        source: Tumbler,
        document: Tumbler,
    },
    /// The session made a version by opening.
    OpenCopy {
        source: Tumbler,
        document: Tumbler,
    },
    /// The session inserted a text.
    Insert {
        document: Tumbler,
        /// The n of the V-address `1.n`.
        at: u32,
        /// What the first byte of the text is numbered in the content of the document. Where there is no byte, what it
        /// would be.
        first: u32,
        text: Text,
    },
    /// The session took out what a span picks.
    Delete {
        document: Tumbler,
        span: Span,
    },
    /// The session swapped two blocks.
    Rearrange {
        document: Tumbler,
        /// The n of each V-address `1.n`.
        cuts: List<u32>,
    },
    /// The session quoted what the specs pick.
    Copy {
        document: Tumbler,
        /// The n of the V-address `1.n`.
        at: u32,
        specs: List<Spec>,
    },
    /// The session made a link.
    Link {
        home: Tumbler,
        /// Counts the links that were made in the home: the last place of the id.
        number: u32,
        /// The n of its V-address `2.n` in its home.
        place: u32,
        from: List<Spec>,
        to: List<Spec>,
        three: List<Spec>,
    },
    /// The session published a document.
    Publish {
        document: Tumbler,
    },
}

/// By hand, so that a caller's exits do not look into the variants.
impl Drop for Change {
    fn drop(self) {
        match self {
            Change::Restart => {}
            Change::Begin => {}
            Change::End => {}
            Change::Account { account: _ } => {}
            Change::Open {
                document: _,
                mode: _,
            } => {}
            Change::Close { document: _ } => {}
            Change::Create { document: _ } => {}
            Change::Version {
                source: _,
                document: _,
            } => {}
            Change::OpenCopy {
                source: _,
                document: _,
            } => {}
            Change::Insert {
                document: _,
                at: _,
                first: _,
                text: _,
            } => {}
            Change::Delete {
                document: _,
                span: _,
            } => {}
            Change::Rearrange {
                document: _,
                cuts: _,
            } => {}
            Change::Copy {
                document: _,
                at: _,
                specs: _,
            } => {}
            Change::Link {
                home: _,
                number: _,
                place: _,
                from: _,
                to: _,
                three: _,
            } => {}
            Change::Publish { document: _ } => {}
        }
    }
}

impl Change {
    /// The same change, in memory of its own.
    pub fn try_clone(&self, alloc: Global) -> Result<Change, Memory>
        ensures { IfOk result (λ copy. plain_change copy ≡ plain_change self.now) }
    {
        Ok(match self {
            Change::Restart => Change::Restart,
            Change::Begin => Change::Begin,
            Change::End => Change::End,
            Change::Account { account } => Change::Account {
                account: account.copy(),
            },
            Change::Open { document, mode } => Change::Open {
                document: document.copy(),
                mode: mode.copy(),
            },
            Change::Close { document } => Change::Close {
                document: document.copy(),
            },
            Change::Create { document } => Change::Create {
                document: document.copy(),
            },
            Change::Version { source, document } => Change::Version {
                source: source.copy(),
                document: document.copy(),
            },
            Change::OpenCopy { source, document } => Change::OpenCopy {
                source: source.copy(),
                document: document.copy(),
            },
            Change::Insert {
                document,
                at,
                first,
                text,
            } => Change::Insert {
                document: document.copy(),
                at: *at,
                first: *first,
                text: List::from_slice(alloc, text.as_slice())?,
            },
            Change::Delete { document, span } => Change::Delete {
                document: document.copy(),
                span: span.copy(),
            },
            Change::Rearrange { document, cuts } => Change::Rearrange {
                document: document.copy(),
                cuts: List::from_slice(alloc, cuts.as_slice())?,
            },
            Change::Copy {
                document,
                at,
                specs,
            } => Change::Copy {
                document: document.copy(),
                at: *at,
                specs: clone_specs(alloc, specs.as_slice())?,
            },
            Change::Link {
                home,
                number,
                place,
                from,
                to,
                three,
            } => Change::Link {
                home: home.copy(),
                number: *number,
                place: *place,
                from: clone_specs(alloc, from.as_slice())?,
                to: clone_specs(alloc, to.as_slice())?,
                three: clone_specs(alloc, three.as_slice())?,
            },
            Change::Publish { document } => Change::Publish {
                document: document.copy(),
            },
        })
    }
}

/// One change and the session that made it. A restart is made by none, and both its numbers are 0.
#[derive(Debug, Drop)]
pub struct Entry {
    pub session: u64,
    /// Counts the entries of the session: its first one has 1.
    pub serial: u64,
    pub change: Change,
}

impl Entry {
    /// The same entry, in memory of its own.
    pub fn try_clone(&self, alloc: Global) -> Result<Entry, Memory>
        ensures { IfOk result (λ copy. plain_entry copy ≡ plain_entry self.now) }
    {
        Ok(Entry {
            session: self.session,
            serial: self.serial,
            change: self.change.try_clone(alloc)?,
        })
    }
}
