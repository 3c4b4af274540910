//! What a front end asks.
ghost use Rattle.std.specs.Prelude.{◌≡◌, IfOk};
ghost use Rattle.febe_data.specs.Plain.{plain_request};

use crate::access::{Mode, Rule};
use crate::spec::{Spec, clone_specs, clone_tumblers};
use crate::want::Want;
use std::alloc::Global;
use tumbler::{List, Memory, Span, Text, Tumbler};

/// A request. Addresses name whatever tumbler they are: whether something is there is a matter of refusals.
#[derive(Debug)]
pub enum Request {
    /// Puts a text into a document at a V-address.
    Insert {
        document: Tumbler,
        at: Tumbler,
        text: Text,
    },
    /// Gives the spans of the document's text and of its links.
    SpanSet {
        document: Tumbler,
    },
    /// Quotes what the specs pick in a document at a V-address.
    Copy {
        document: Tumbler,
        at: Tumbler,
        specs: List<Spec>,
    },
    /// Swaps the two blocks that three or four cuts bound.
    Rearrange {
        document: Tumbler,
        cuts: List<Tumbler>,
    },
    /// Gives the bytes and links that the specs pick.
    Retrieve {
        specs: List<Spec>,
    },
    /// Gives where the two specs pick the same content.
    Relate {
        left: Spec,
        right: Spec,
    },
    /// Makes an empty document of the session's account.
    Create,
    /// Takes what the span picks out of a document.
    Delete {
        document: Tumbler,
        span: Span,
    },
    /// Makes a version of a document, with all that is in it.
    Version {
        document: Tumbler,
    },
    /// Gives the one span of all that is in a document.
    WholeSpan {
        document: Tumbler,
    },
    /// Ends the session.
    Quit,
    /// Gives where a link's end is now.
    Follow {
        link: Tumbler,
        /// 1, 2 or 3. Other numbers can be asked for, and are refused.
        end: u32,
    },
    /// Gives the documents that have content which the specs pick.
    FindDocuments {
        specs: List<Spec>,
    },
    /// Makes a link between what three spec sets pick.
    CreateLink {
        home: Tumbler,
        from: List<Spec>,
        to: List<Spec>,
        three: List<Spec>,
    },
    /// Gives which of the picked text is in an end of some link, for each end.
    EndSets {
        specs: List<Spec>,
    },
    /// Counts links.
    CountLinks {
        want: Want,
    },
    /// Gives the ids of links.
    FindLinks {
        want: Want,
    },
    /// Gives the first ids of links above a tumbler.
    NextLinks {
        want: Want,
        after: Tumbler,
        /// How many ids at most.
        limit: u32,
    },
    /// Sets the session's account.
    Account {
        account: Tumbler,
    },
    /// Opens a document, or a version of it.
    Open {
        document: Tumbler,
        mode: Mode,
        rule: Rule,
    },
    /// Closes a document.
    Close {
        document: Tumbler,
    },
    /// Lets every session read a document, for good.
    Publish {
        document: Tumbler,
    },
}

/// By hand, so that a caller's exits do not look into the variants.
impl Drop for Request {
    fn drop(self) {
        match self {
            Request::Insert {
                document: _,
                at: _,
                text: _,
            } => {}
            Request::SpanSet { document: _ } => {}
            Request::Copy {
                document: _,
                at: _,
                specs: _,
            } => {}
            Request::Rearrange {
                document: _,
                cuts: _,
            } => {}
            Request::Retrieve { specs: _ } => {}
            Request::Relate { left: _, right: _ } => {}
            Request::Create => {}
            Request::Delete {
                document: _,
                span: _,
            } => {}
            Request::Version { document: _ } => {}
            Request::WholeSpan { document: _ } => {}
            Request::Quit => {}
            Request::Follow { link: _, end: _ } => {}
            Request::FindDocuments { specs: _ } => {}
            Request::CreateLink {
                home: _,
                from: _,
                to: _,
                three: _,
            } => {}
            Request::EndSets { specs: _ } => {}
            Request::CountLinks { want: _ } => {}
            Request::FindLinks { want: _ } => {}
            Request::NextLinks {
                want: _,
                after: _,
                limit: _,
            } => {}
            Request::Account { account: _ } => {}
            Request::Open {
                document: _,
                mode: _,
                rule: _,
            } => {}
            Request::Close { document: _ } => {}
            Request::Publish { document: _ } => {}
        }
    }
}

impl Request {
    /// The same request, in memory of its own.
    pub fn try_clone(&self, alloc: Global) -> Result<Request, Memory>
        ensures { IfOk result (λ copy. plain_request copy ≡ plain_request self.now) }
    {
        Ok(match self {
            Request::Insert { document, at, text } => Request::Insert {
                document: document.copy(),
                at: at.copy(),
                text: List::from_slice(alloc, text.as_slice())?,
            },
            Request::SpanSet { document } => Request::SpanSet {
                document: document.copy(),
            },
            Request::Copy {
                document,
                at,
                specs,
            } => Request::Copy {
                document: document.copy(),
                at: at.copy(),
                specs: clone_specs(alloc, specs.as_slice())?,
            },
            Request::Rearrange { document, cuts } => Request::Rearrange {
                document: document.copy(),
                cuts: clone_tumblers(alloc, cuts.as_slice())?,
            },
            Request::Retrieve { specs } => Request::Retrieve {
                specs: clone_specs(alloc, specs.as_slice())?,
            },
            Request::Relate { left, right } => Request::Relate {
                left: left.try_clone(alloc)?,
                right: right.try_clone(alloc)?,
            },
            Request::Create => Request::Create,
            Request::Delete { document, span } => Request::Delete {
                document: document.copy(),
                span: span.copy(),
            },
            Request::Version { document } => Request::Version {
                document: document.copy(),
            },
            Request::WholeSpan { document } => Request::WholeSpan {
                document: document.copy(),
            },
            Request::Quit => Request::Quit,
            Request::Follow { link, end } => Request::Follow {
                link: link.copy(),
                end: *end,
            },
            Request::FindDocuments { specs } => Request::FindDocuments {
                specs: clone_specs(alloc, specs.as_slice())?,
            },
            Request::CreateLink {
                home,
                from,
                to,
                three,
            } => Request::CreateLink {
                home: home.copy(),
                from: clone_specs(alloc, from.as_slice())?,
                to: clone_specs(alloc, to.as_slice())?,
                three: clone_specs(alloc, three.as_slice())?,
            },
            Request::EndSets { specs } => Request::EndSets {
                specs: clone_specs(alloc, specs.as_slice())?,
            },
            Request::CountLinks { want } => Request::CountLinks {
                want: want.try_clone(alloc)?,
            },
            Request::FindLinks { want } => Request::FindLinks {
                want: want.try_clone(alloc)?,
            },
            Request::NextLinks { want, after, limit } => Request::NextLinks {
                want: want.try_clone(alloc)?,
                after: after.copy(),
                limit: *limit,
            },
            Request::Account { account } => Request::Account {
                account: account.copy(),
            },
            Request::Open {
                document,
                mode,
                rule,
            } => Request::Open {
                document: document.copy(),
                mode: mode.copy(),
                rule: rule.copy(),
            },
            Request::Close { document } => Request::Close {
                document: document.copy(),
            },
            Request::Publish { document } => Request::Publish {
                document: document.copy(),
            },
        })
    }
}
