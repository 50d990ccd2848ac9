//! The grammar of scripts, and reading by it (`specs/`).
#![tactic(auto)]

mod laws;

pub use laws::{numbers_are_values, one_script};
