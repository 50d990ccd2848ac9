//! The type of a body, and of a constant expression.
#![tactic(auto)]

mod bodies;
mod constants;

pub use bodies::check_body;
pub use constants::{is_const_typed, is_reference_typed};
