//! Sources, sinks, clocks and disks, in memory and in a folder, and logs on these disks, with what a crash leaves of them
//! at each moment.
#![tactic(auto)]

#[cfg(test)]
mod adapters;
#[cfg(test)]
mod clocks;
#[cfg(test)]
mod crashes;
#[cfg(test)]
mod fakes;
#[cfg(test)]
mod folder_logs;
#[cfg(test)]
mod logs;
#[cfg(test)]
mod moves;
#[cfg(test)]
mod rows;
#[cfg(test)]
mod second_area;
