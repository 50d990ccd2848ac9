//! Tail calls: the function that is called takes the place of the innermost frame (Core, execution, function calls).
#![tactic(auto)]

mod tails;

pub use tails::{tail_own, tail_printer};
