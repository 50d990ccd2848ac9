//! Runs of modules, to their answers, and the writing of answers.
#![tactic(auto)]

mod delivery;
mod running;

pub use delivery::{deliver, write_pieces};
pub use running::{begin_run, limit_refusal, result_lines, run, run_from, trap_refusal};
