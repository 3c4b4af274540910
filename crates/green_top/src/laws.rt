//! Laws of runs. Each is a function that does nothing, whose contract says the law.
ghost use Rattle.green_top.specs.Laws.{Completeness, GeneratedCompleteness, DamageIsTold};

use edit_log::laws::one_reading;
use green_store::laws::one_opening;

/// A session's whole input is served over a log that is not damaged, or memory runs out.
pub fn completeness()
    ensures { Completeness }
{
    one_reading();
    one_opening();
}

/// A generated session is served over a log that is not damaged, or memory runs out.
pub fn generated_completeness()
    ensures { GeneratedCompleteness }
{
    one_reading();
    one_opening();
}

/// Over a damaged log no session is served, and nothing is reported but why.
pub fn damage_is_told()
    ensures { DamageIsTold }
{
    one_opening();
}
