//! Whether a script is small enough: its size is counted down from a limit, so that no sum can overflow (`specs/`).
#![tactic(auto)]

mod expression;
mod script;
mod statement;

pub use script::is_within;
