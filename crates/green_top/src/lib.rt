//! The top call: one session from a source to a sink.
#![tactic(auto)]

mod batch;
mod beside;
mod buffers;
mod exchange;
mod generate;
mod jobs;
pub mod laws;
mod plays;
mod report;
mod round;
mod served;
mod session;
mod session_end;
mod summary;
mod words;

pub use batch::run_batch;
pub use report::Report;
pub use round::{Round, background_round};
pub use served::serve_session;
pub use session::MOST_INPUT;
pub use session_end::SessionEnd;
pub use session_generator::generated;
