//! Reductions of table instructions and of globals: each call takes just the one of the configuration in which a segment's stack stands.
#![tactic(auto)]

mod global_steps;
mod table_steps;

pub use global_steps::{global_get, global_set};
pub use table_steps::table;
