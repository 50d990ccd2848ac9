//! The code that the bodies of a script are compiled to (`specs/`).
#![tactic(auto)]

mod body;
mod coroutines;
mod expression;
mod handler;
mod layout;
mod operators;
mod slots;
mod statement;
mod temporaries;

pub use body::function_body;
pub use handler::{Placed, handler_body};
pub use layout::{Layout, LocalName, LocalType, OwnHandler};
pub use temporaries::high_block;
