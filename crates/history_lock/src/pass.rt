//! Passes.
ghost use Rattle.std.specs.Prelude.{◌≡◌, false, [], None};

use crate::kept::Kept;
use crate::view::View;
use atomic_table::Seat;

/// What one user of a lock has seen and done there.
/// It stands apart from the alias, since a closure over a type with the bound gets no proof.
#[derive(Drop)]
pub struct Token<T, E> {
    pub(crate) number: u64,
    pub(crate) seat: Seat<Option<T>, View<E>>,
    ghost numbered: { number ≡ seat.me.0.number },
    ghost idle: { (seat.me.1 ≡ []) × (seat.me.0.held ≡ None) × (seat.me.0.out ≡ false) × (seat.me.0.spent ≡ false) },
}

/// A pass of a lock over `T`.
pub type Pass<T> = Token<T, <T as Kept>::Entry>;

impl<T, E> Token<T, E> {
    /// The number of the pass's own entries, or 0 while it has none. It takes no memory.
    pub fn number(&self) -> u64
        ensures { result ≡ self.now.seat.me.0.number }
    {
        self.number
    }
}
