//! Terms, contexts and the reduction rules (`specs/`), with their laws.
#![tactic(auto)]

mod laws;
mod limit;
mod trap;

pub use laws::{
    decomposes, deterministic, finds_innermost, only_calls_add_frames, only_switches_are_unhandled,
    plain_reductions_go_apart,
};
pub use limit::{RunLimit, StartLimit};
pub use trap::Trap;
