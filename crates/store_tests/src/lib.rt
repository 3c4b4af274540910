//! What a store is made of, call by call: the tables of documents and of access, the contents by address, and the lock.
#![tactic(auto)]

#[cfg(test)]
mod access;
#[cfg(test)]
mod contents;
#[cfg(test)]
mod documents;
#[cfg(test)]
mod locked;
