//! The machine: a run of a module that does what the reduction rules say.
#![tactic(auto)]

mod machine;
mod outcome;

pub use machine::Machine;
pub use outcome::{Outcome, Stepped};
pub use w_configuration::RunStop;
