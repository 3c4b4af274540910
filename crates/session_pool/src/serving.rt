//! Jobs that one thread serves.
ghost use Rattle.std.specs.Prelude.{◌≡◌, [], ◌∷◌};
ghost use Rattle.session_pool.specs.Counts.{raised};
ghost use Rattle.session_pool.specs.Serving.{HasServed};

use crate::gate::Gate;
use crate::passes::IssuePasses;
use crate::serve::Serve;
use std::alloc::Global;
use std::sync::Wait;

// Serves a job with a new pass, which the given one then takes in.
pub(crate) fn serve_one<R: Wait, L: IssuePasses, J, W: Serve<L, J>, G: Gate>(
    rt: &R,
    alloc: Global,
    lock: &L,
    worker: &W,
    gate: &G,
    pass: &mut L::Pass,
    tally: &mut W::Tally,
    number: u64,
    job: J,
)
    requires { L.is_of lock.now pass.old }
    ensures same_lock { L.is_of lock.now pass.new }
    ensures served { (own : _) × HasServed L.owner (L.knows pass.old) (own ∷ []) (L.knows pass.new) }
    ensures counted { W.count tally.new ≡ raised (W.count tally.old) }
{
    let mut own = lock.another(pass);
    gate.before(number);
    worker.serve(rt, alloc, lock, &mut own, job, tally);
    gate.after(number);
    lock.end(pass, own);
}
