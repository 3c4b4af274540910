//! Whole runs over a source and a sink that lie in memory, steps of a store, and tables of requests over each.
#![tactic(auto)]

#[cfg(test)]
mod batch_rows;
#[cfg(test)]
mod bounds;
#[cfg(test)]
mod crash_rows;
#[cfg(test)]
mod disk_rows;
#[cfg(test)]
mod drawn_rows;
#[cfg(test)]
mod entry_rows;
#[cfg(test)]
mod faults;
#[cfg(test)]
mod flat_tables;
#[cfg(test)]
mod folder_rows;
#[cfg(test)]
mod generated_rows;
#[cfg(test)]
mod history_rows;
#[cfg(test)]
mod journal_rows;
#[cfg(test)]
mod marked_rows;
#[cfg(test)]
mod moment_rows;
#[cfg(test)]
mod page_bytes;
#[cfg(test)]
mod page_faults;
#[cfg(test)]
mod page_moments;
#[cfg(test)]
mod page_rows;
#[cfg(test)]
mod page_sessions;
#[cfg(test)]
mod paged_runs;
#[cfg(test)]
mod private_rows;
#[cfg(test)]
mod protocol_rows;
#[cfg(test)]
mod rows;
#[cfg(test)]
mod runs;
#[cfg(test)]
mod served_rows;
#[cfg(test)]
mod sessions;
#[cfg(test)]
mod store_rows;
#[cfg(test)]
mod summary_rows;
#[cfg(test)]
mod tables;
#[cfg(test)]
mod taking_rows;
