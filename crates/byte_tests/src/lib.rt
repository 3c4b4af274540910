//! Requests, replies and entries as bytes, both ways, at bytes that were worked out by hand.
#![tactic(auto)]

#[cfg(test)]
mod entries;
#[cfg(test)]
mod feeds;
#[cfg(test)]
mod replies;
#[cfg(test)]
mod requests;
