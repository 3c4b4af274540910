//! What each step on the lock's table tells the one that makes it, and the rule that holds between any two.
use crate::kept::Kept;
use crate::view::View;
use atomic_table::{Join, Play, Split, TableRule};
use std::snapshot::Snapshot;

pub struct Law;

impl<T: Kept> TableRule<Option<T>, View<T::Entry>, Snapshot<T>> for Law {
    ghost use Rattle.history_lock.specs.Passes.{newcomer};
    ghost use Rattle.history_lock.specs.inside.Rule.{IsKept};

    ghost holds = { λ _. IsKept T.history T.owner T.fixed };

    ghost first = { λ key. newcomer (T.history key.value) (T.fixed key.value) };
}

// The exchange that takes the lock and the value.
pub(crate) struct Acquire;

impl<T: Kept> Play<Option<T>, View<T::Entry>> for Acquire {
    ghost use Rattle.history_lock.specs.inside.Steps.{acquired};

    ghost then = { acquired T.history T.owner T.fixed T.marks };
}

// The exchange that takes the lock and leaves the value in its slot.
pub(crate) struct CloseOff;

impl<T: Kept> Play<Option<T>, View<T::Entry>> for CloseOff {
    ghost use Rattle.history_lock.specs.inside.Steps.{closed_off};

    ghost then = { closed_off T.history T.owner T.fixed T.marks };
}

// The store of the history's length.
pub(crate) struct Recount;

impl<T: Kept> Play<Option<T>, View<T::Entry>> for Recount {
    ghost use Rattle.history_lock.specs.inside.Steps.{recounted};

    ghost then = { recounted T.history T.owner T.marks };
}

// The store that frees the lock.
pub(crate) struct Free;

impl<T, E> Play<Option<T>, View<E>> for Free {
    ghost use Rattle.history_lock.specs.inside.Steps.{freed};

    ghost then = { freed };
}

// The load of the history's length.
pub(crate) struct Look;

impl<T: Kept> Play<Option<T>, View<T::Entry>> for Look {
    ghost use Rattle.history_lock.specs.inside.Steps.{looked};

    ghost then = { looked T.owner };
}

// A new pass, which has seen what the one it comes from has.
pub(crate) struct Fork;

impl<E> Split<View<E>> for Fork {
    ghost use Rattle.history_lock.specs.inside.Steps.{successor};

    ghost left = { λ v. v };

    ghost right = { successor };
}

// A pass that takes in another.
pub(crate) struct TakeIn;

impl<E> Join<View<E>> for TakeIn {
    ghost use Rattle.history_lock.specs.Passes.{taking_in};
    ghost use Rattle.history_lock.specs.inside.Steps.{spent_view};

    ghost both = { taking_in };

    ghost spent = { spent_view };
}
