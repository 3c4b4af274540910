//! Places, and what front ends and the back end say as values, with the spellings of these and of their fields.
#![tactic(auto)]

#[cfg(test)]
mod fields;
#[cfg(test)]
mod places;
#[cfg(test)]
mod values;
