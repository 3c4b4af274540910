//! Runs that are refused something: inputs that are cut, sources, sinks and disks that fail, and logs of which a byte was
//! changed, each at every place there is.
#![tactic(auto)]

#[cfg(test)]
mod disk_calls;
#[cfg(test)]
mod exchanges;
#[cfg(test)]
mod input_cuts;
#[cfg(test)]
mod log_bytes;
#[cfg(test)]
mod moved_calls;
#[cfg(test)]
mod publish_calls;
#[cfg(test)]
mod reads_and_writes;
#[cfg(test)]
mod runs;
