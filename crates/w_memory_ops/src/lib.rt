//! The memory instructions: a call takes just the reduction of the configuration in which a segment's stack stands (`specs/`).
#![tactic(auto)]

mod accesses;
mod bulk;
mod finishing;
mod memory_steps;
mod numbers;
mod sizes;

pub use accesses::{load, store_number};
pub use memory_steps::memory;
