//! What a play, or the attempt at one, comes to.
use crate::kept::Kept;

/// A play that was made: its answer, and the length of the history after it.
#[derive(Drop)]
pub struct Acted<A> {
    pub answer: A,
    pub point: u64,
}

/// A call that does not wait was done, or found the lock held and hands the job back.
#[derive(Drop)]
pub enum Trial<A, J> {
    Done(Acted<A>),
    Busy(J),
}

/// What `try_act` comes to.
pub type Tried<T> = Trial<<T as Kept>::Answer, <T as Kept>::Job>;
