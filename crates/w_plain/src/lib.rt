//! One plain reduction: that of the configuration in which a segment's stack stands, with the store, and what it prints (`specs/`).
#![tactic(auto)]

mod attempts;
mod blocks;
mod calls;
mod control_attempts;
mod controls;
mod exits;
mod families;
mod instructions;
mod packed_steps;
mod program;
mod progress;
mod rare;
mod reduction;
mod silent;
mod stop;
mod values;

pub use attempts::attempt;
pub use instructions::instr_at;
pub use program::KnownProgram;
pub use progress::Progress;
pub use reduction::{branch_of_suspend, plain};
pub use stop::Stop;
