//! The fields of what is kept on a disk: numbers of a fixed size, and tumblers.
#![tactic(auto)]

mod fields;
mod writing;

pub use fields::{text_at, tumbler_at, u8_at, u32_at, u64_at};
pub use writing::{
    append_each_number, append_text, append_tumbler, append_u8, append_u32, append_u64,
};
