//! Headers and chains of pages, on a disk in memory and as bytes.
#![tactic(auto)]

#[cfg(test)]
mod headers;
#[cfg(test)]
mod pages;
#[cfg(test)]
mod spelled;
