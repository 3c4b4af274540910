//! What a pass knows. No value of these types is made: only contracts read them, and a `LinkedList` is a list there.
use std::collections::LinkedList;

/// The marks before and after a play, and the length of the history after it.
pub struct MarkedAct {
    pub before: LinkedList<u64>,
    pub after: LinkedList<u64>,
    pub point: u64,
}

/// What the holder of the lock knows: the history, and the marks of the value.
pub struct Held<E> {
    pub history: LinkedList<E>,
    pub marks: LinkedList<u64>,
}

pub struct View<E> {
    /// 0, or the number of the pass's own entries.
    pub number: u64,
    /// The history that was seen last.
    pub seen: LinkedList<E>,
    /// The entries of the pass's number.
    pub mine: LinkedList<E>,
    /// What another pass had seen that was taken in, until the history is seen next.
    pub heard: LinkedList<E>,
    /// The numbers and entries of the passes that were taken in.
    pub ended: LinkedList<(u64, LinkedList<E>)>,
    /// The value's fixed numbers.
    pub fixed: LinkedList<u64>,
    /// What the exchanges on the lock's word have found: 0 where it was free, 1 where it was held.
    pub finds: LinkedList<u64>,
    /// The plays that were made.
    pub acts: LinkedList<MarkedAct>,
    /// While the pass holds the lock.
    pub held: Option<Held<E>>,
    /// The value is out with it.
    pub out: bool,
    /// Another pass has taken it in.
    pub spent: bool,
}
