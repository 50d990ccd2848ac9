//! Runs that C holds by a handle, and steps (`specs/`).
#![tactic(auto)]

mod beginning;
mod handle;
mod held_run;
mod loose;
mod stepping;
mod unread;

pub use beginning::begin;
pub use handle::Handle;
pub use held_run::HeldRun;
pub use stepping::{Counts, NoStep, count, end, read, results, step};
