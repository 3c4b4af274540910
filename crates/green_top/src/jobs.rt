//! Jobs at the moments that a clock tells.
ghost use Rattle.std.specs.Prelude.{◌≡◌};
ghost use Rattle.green_io.specs.Clock.{IsNext};

use green_io::Clock;
use green_store::{HouseJob, Timed};

/// The job at the clock's next moment.
pub(crate) fn timed<C: Clock>(clock: &mut C, job: HouseJob) -> Timed
    ensures job { result.job ≡ job }
    ensures moment { IsNext result.moment (C.coming clock.old) (C.coming clock.new) }
{
    let moment = clock.now();
    Timed { moment, job }
}
