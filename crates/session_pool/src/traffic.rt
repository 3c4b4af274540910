//! What goes through the channel, and the rule over it.
use crossbeam_channel::protocol::{Join, Lesson, Outcome, Protocol, Split};

/// What a worker is sent.
#[derive(Drop)]
pub enum Message<J> {
    Job { number: u64, job: J },
    Stop,
}

/// What a seat at the channel has sent and taken, in jobs, and its parts of the right to know the whole. No value of it is made.
pub struct Traffic {
    pub parts: u64,
    pub sent: u64,
    pub taken: u64,
}

/// As many jobs were sent as were taken and are in the channel.
pub struct Balance;

impl<J> Protocol<Message<J>, Traffic> for Balance {
    ghost use Rattle.session_pool.specs.inside.Rule.{IsBalanced, traffic, all_parts};

    ghost holds = { IsBalanced };

    ghost first = { traffic all_parts 0 0 };
}

/// A seat gives one of its parts to a new one.
pub struct Cut;

impl Split<Traffic> for Cut {
    ghost use Rattle.std.specs.Prelude.{◌-◌};
    ghost use Rattle.session_pool.specs.inside.Rule.{traffic};

    ghost left = { λ v. traffic (v.parts - 1) v.sent v.taken };

    ghost right = { λ v. traffic 1 0 0 };
}

/// A seat takes in another.
pub struct Unite;

impl Join<Traffic> for Unite {
    ghost use Rattle.session_pool.specs.inside.Rule.{traffic, united};

    ghost both = { united };

    ghost spent = { traffic 0 0 0 };
}

/// A message goes into the channel.
pub struct Put;

impl<J> Outcome<Message<J>, Traffic> for Put {
    ghost use Rattle.std.specs.Prelude.{◌≡◌};
    ghost use Rattle.session_pool.specs.inside.Rule.{sending};

    ghost then = { λ v message w. w ≡ sending v message };
}

impl<J> Lesson<Message<J>, Traffic> for Put {
    ghost use Rattle.std.specs.Prelude.{⊤};

    ghost fact = { λ v items. ⊤ };
}

/// A message comes out of the channel. Where none does, a seat with all parts learns what is in it.
pub struct Take;

impl<J> Outcome<Message<J>, Traffic> for Take {
    ghost use Rattle.std.specs.Prelude.{◌≡◌};
    ghost use Rattle.session_pool.specs.inside.Rule.{taking};

    ghost then = { λ v message w. w ≡ taking v message };
}

impl<J> Lesson<Message<J>, Traffic> for Take {
    ghost use Rattle.session_pool.specs.inside.Rule.{KnowsAll};

    ghost fact = { KnowsAll };
}
