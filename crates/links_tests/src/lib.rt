//! Links and the spans that they are found by, call by call and beside plain lists.
#![tactic(auto)]

#[cfg(test)]
mod covered;
#[cfg(test)]
mod linked;
