//! The parser of expressions: the expression that tokens begin with, and the place behind it (`specs/`).
#![tactic(auto)]

mod expression;
mod level;
mod source;
mod stop;
mod token;

pub use expression::{expr_at, parenthesized_at};
pub use source::Source;
pub use stop::Stop;
pub use token::{expect, int_at, is_kind, kind_at, name_at};
