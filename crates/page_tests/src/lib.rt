//! Nodes and tables as bytes, both ways, at bytes that were worked out by hand.
#![tactic(auto)]

#[cfg(test)]
mod nodes;
#[cfg(test)]
mod tables;
