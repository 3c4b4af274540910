//! The trees of a store, as pages have them, pass the tests that loading makes. No program calls the laws: each is a
//! function that does nothing, whose contract says it.
#![tactic(auto)]

pub mod laws;
