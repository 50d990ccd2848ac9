//! LEB128 numbers in bytes, and the formats by which a grammar says how fields are spelled (`specs/`).
#![tactic(auto)]

mod reading;
mod writing;

pub use reading::{read_byte, read_s32, read_s33, read_s64, read_u32, read_u64};
pub use writing::{put_s32, put_s33, put_s64, put_u32, put_u64};
