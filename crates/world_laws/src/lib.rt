//! Laws of what histories make of the world, of what a relation of two documents gives, and of who may read what. No program
//! calls them: each is a function that does nothing, whose contract says the law.
#![tactic(auto)]

pub mod histories;
pub mod privacy;
pub mod relations;
