//! How the stack of a segment stands for a part of a term, and how it goes on behind an instruction (`specs/`).
#![tactic(auto)]

mod did;
mod going_on;
mod laws;
mod operands;

pub use did::Did;
pub use going_on::{drop_next, next, push_next, replace};
pub use laws::bodies_are_read;
pub use operands::{i32_of, i64_of, is_null, top_three, top_two};
