//! Trees on pages of a disk in memory.
#![tactic(auto)]

#[cfg(test)]
mod empty;
