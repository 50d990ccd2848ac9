//! Blocks, branches, returns and exits: each call takes just the reduction of the configuration in which a segment's stack stands.
#![tactic(auto)]

mod block_steps;
mod branch_steps;
mod exits;
mod null_branches;
mod outside;
mod plain_steps;

pub use block_steps::{block, choice};
pub use branch_steps::{br, br_if, br_table, branch_left, return_};
pub use exits::{exit_else, exit_end};
pub use null_branches::{br_on_non_null, br_on_null};
pub use outside::end_outside;
pub use plain_steps::{nop, unreachable};
