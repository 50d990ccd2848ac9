//! Typing of the stack switching instructions and of their clauses (`specs/`).
#![tactic(auto)]

mod clauses;
mod continuations;
mod instructions;

pub use instructions::switching;
