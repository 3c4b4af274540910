//! What front ends and the back end say to each other, as values: requests, replies, and the entries of the history.
#![tactic(auto)]

mod access;
pub mod bounds;
mod entry;
mod generator;
mod limits;
mod refusal;
mod reply;
mod request;
mod run;
mod spec;
mod validity;
mod want;
mod writing;

pub use access::{Mode, Rule};
pub use entry::{Change, Entry};
pub use generator::Generator;
pub use limits::{BadLimits, Limits};
pub use refusal::Refusal;
pub use reply::{Item, Reply};
pub use request::Request;
pub use run::{Diagonal, Run};
pub use spec::Spec;
pub use tumbler::{List, Memory, Span, Text, Tumbler};
pub use want::Want;
pub use writing::{
    append_diagonals, append_items, append_number, append_span, append_spans, append_spec,
    append_specs, append_text, append_tumbler, append_tumblers,
};
