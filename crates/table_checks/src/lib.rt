//! What loading asks of the tables that stand beside trees on pages, and look-ups in tables that pass.
#![tactic(auto)]

mod documents;
mod homes;
mod numbers;
mod order;
mod runs;
mod sound;

pub use documents::content_of;
pub use homes::links_of_home;
pub use sound::are_sound;
