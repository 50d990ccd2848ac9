//! The lexer of scripts: the tokens of bytes, or the first place where none begins (`specs/`).
#![tactic(auto)]

mod bytes;
mod fault;
mod laws;
mod lexing;
mod piece;
mod words;

pub use fault::LexFault;
pub use laws::{one_lexing, pieces_are_as_the_rules_say, some_lexing};
pub use lexing::lex;
pub use words::number_of;
