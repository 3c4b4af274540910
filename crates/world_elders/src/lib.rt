//! Laws of what never lacks in the worlds that histories make: elders of documents, bytes of contents, and what rows and
//! links name. Loading asks the same of trees on pages. No program calls the laws: each is a function that does nothing,
//! whose contract says it.
#![tactic(auto)]

pub mod laws;
