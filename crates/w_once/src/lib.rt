//! Each continuation is used at most once (`specs/`): what a run's reductions consume, and that nothing is consumed twice.
#![tactic(auto)]

mod laws;

pub use laws::{consumed_continuations_trap, continuations_are_consumed_once};
