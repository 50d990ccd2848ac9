//! The text of a script of n tasks, whose size and work grow with n (`specs/`).
#![tactic(auto)]

mod text;

pub use text::generate;
