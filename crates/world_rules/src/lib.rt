//! What the world is, and what requests make of it: what each entry does, when a request is refused, what it changes, and
//! what it is answered. Requests are served over look-ups, so by any world that answers them.
#![tactic(auto)]

mod copies;
mod counts;
mod cuts;
mod durable;
mod effects;
mod ends;
mod errors;
mod finding;
mod lookups;
mod making;
mod opening;
mod pairs;
mod readable;
mod readers;
mod reading;
mod refusals;
mod requests;
mod rows;
mod spans;
mod three_sets;
mod writing;

pub use copies::clone_specs;
pub use counts::{count_down, count_of, count_up};
pub use cuts::{Cuts, cuts_of};
pub use durable::is_durable;
pub use effects::{Effect, extended, is_of_account, one_more_than};
pub use ends::End;
pub use errors::WorldError;
pub use lookups::{Apply, Find, LookUp, Size, WantedRuns};
pub use pairs::Pair;
pub use readable::is_owned_by;
pub use readers::{Readers, reads};
pub use refusals::has_bad_span;
pub use requests::{Served, answer, entry, serve};
pub use rows::{AccountRow, ByteRow, OpenRow, Part, Row, SessionRow};
pub use spans::span_from;
pub use three_sets::three_runs;
