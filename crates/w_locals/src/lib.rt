//! The locals of a body: their types, found by where their runs end, and which of them are set, at the end of each open block (`specs/`).
#![tactic(auto)]

mod items;
mod local_types;
mod locals;

pub use locals::Locals;
