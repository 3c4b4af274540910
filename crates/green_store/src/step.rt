//! What a store is asked, and what it answers.

use febe_data::{Reply, Request};

/// One step, of some session or of a new one.
#[derive(Debug, Drop)]
pub enum Step {
    /// A new session begins.
    Begin,
    /// A session makes a request.
    Ask { session: u64, request: Request },
    /// A session ends without a quit.
    End { session: u64 },
    /// The trees are put right, by one step: a node is split, merged or dropped where some tree allows it; else all trees are
    /// written to pages, where so many kept entries stand behind those that the pages stand for as the limits say; else nodes
    /// that no tree reaches are let go, once they are many, in a sweep over all nodes.
    Background,
}

/// What comes of a step.
#[derive(Debug, Drop)]
pub enum StepAnswer {
    /// The session of this number has begun.
    Begun { session: u64 },
    /// Each number is taken, so no session began.
    NoNumber,
    /// The request's reply, and the number of entries after it.
    Reply { reply: Reply, point: u64 },
    /// The session has not begun, or is over.
    NoSession,
    /// The session has ended.
    Ended,
    /// One step of the balancer was made in a tree.
    Balanced,
    /// The pages stand for all kept entries.
    Flushed,
    /// The disk failed while pages were written.
    Disk,
    /// The nodes that no tree reaches are gone.
    Swept,
    /// Nothing is to be put right.
    Idle,
    /// There was no memory for a new session, or for what is to be put right.
    Memory,
}
