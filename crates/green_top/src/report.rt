//! What a run did.

use febe_data::{Entry, List};
use std::alloc::Global;

/// What a run did.
#[derive(Debug, Drop)]
pub struct Report {
    /// The history: the entries of the log as it was read, a restart, and the session's entries.
    pub history: List<Entry>,
    /// When each kept entry of the history was made, in their order: at the moment that the clock gave to its step, or as the log
    /// had it, where 0 stands for a moment that was not logged.
    pub moments: List<u64>,
    /// How many entries the history had once the run had begun; 0 where it never did.
    pub opened: u64,
    /// The number of entries after each reply, one point a reply.
    pub points: List<u64>,
    /// How many bytes the source gave.
    pub bytes_read: u64,
    /// The offset that the status names, in the input or in the area of a damaged log; 0 where it names none.
    pub place: u64,
}

impl Report {
    ghost use Rattle.std.specs.Prelude.{◌≡◌, []};

    /// The report of a run that has done nothing.
    pub fn new(alloc: Global) -> Report
        ensures history { result.history.items ≡ [] }
        ensures moments { result.moments.items ≡ [] }
        ensures opened { result.opened ≡ 0 }
        ensures points { result.points.items ≡ [] }
        ensures bytes_read { result.bytes_read ≡ 0 }
        ensures place { result.place ≡ 0 }
    {
        Report {
            history: List::new(alloc),
            moments: List::new(alloc),
            opened: 0,
            points: List::new(alloc),
            bytes_read: 0,
            place: 0,
        }
    }
}
