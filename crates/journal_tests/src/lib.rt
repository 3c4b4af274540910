//! Pages on a disk in memory: what a crash leaves of two commits, of which a fault stops the first, of openings, and of
//! saves.
#![tactic(auto)]

#[cfg(test)]
mod commits;
#[cfg(test)]
mod flushes;
#[cfg(test)]
mod gates;
#[cfg(test)]
mod pages;
#[cfg(test)]
mod saves;
