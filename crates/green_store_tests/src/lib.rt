//! A store over a disk in memory, step by step: two sessions in turn, logs that it opens, background steps, and a disk of
//! which each call fails once.
#![tactic(auto)]

#[cfg(test)]
mod housed;
#[cfg(test)]
mod opening;
#[cfg(test)]
mod sessions;
#[cfg(test)]
mod tending;
#[cfg(test)]
mod timed_logs;
