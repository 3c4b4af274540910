//! Numbers that look random and depend on a start alone.
ghost use Rattle.std.specs.Prelude.{◌≡◌};
ghost use Rattle.febe_data.specs.Generator.{state_after};

use std::marker::Model;

/// A linear congruential generator. What is made from one start is the same on every machine, so input and crashes that
/// it chooses can be made again from a number.
#[derive(Clone, Copy, Debug, PartialEq, Eq)]
pub struct Generator {
    state: u64,
}

impl Model for Generator {
    ghost use Rattle.std.specs.Prelude.{ℕ};

    ghost Value = { ℕ };

    ghost view = { λ generator. generator.state };

    ghost inverse = { λ state. record { state = state } };
}

impl Generator {
    ghost use Rattle.febe_data.specs.Generator.{state_after, value_of};

    /// A generator that begins with this state.
    pub fn new(start: u64) -> Generator
        ensures { result ≡ start }
    {
        Generator { state: start }
    }

    /// The next number: the upper half of the next state.
    pub fn next(&mut self) -> u32
        ensures state { self.new ≡ state_after self.old }
        ensures value { result ≡ value_of self.new }
    {
        let state = state_after(self.state);
        self.state = state;
        (state >> 32) as u32
    }
}

/// The state that follows.
fn state_after(state: u64) -> u64
    ensures { result ≡ state_after state }
{
    let product = (state as u128) * 6_364_136_223_846_793_005;
    let sum = product + 1_442_695_040_888_963_407;
    (sum % 18_446_744_073_709_551_616) as u64
}
