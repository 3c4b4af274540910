//! Trees of shared nodes, call by call: edits, look-ups, what a sweep leaves, and what steps make of their shape.
#![tactic(auto)]

#[cfg(test)]
mod balanced;
#[cfg(test)]
mod nodes;
#[cfg(test)]
mod searched;
#[cfg(test)]
mod swept;
