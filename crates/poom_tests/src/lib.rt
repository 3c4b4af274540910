//! Documents as trees, where two of them show the same content, and whether two trees hold the same, call by call and
//! beside plain lists.
#![tactic(auto)]

#[cfg(test)]
mod compared;
#[cfg(test)]
mod documents;
#[cfg(test)]
mod side_by_side;
