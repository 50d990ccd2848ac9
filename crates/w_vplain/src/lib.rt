//! Typing of a body, one call for each instruction (`specs/`).
#![tactic(auto)]

mod blocks;
mod calls;
mod checker;
mod moves;
mod room;

pub use checker::Checker;
pub use room::Room;
