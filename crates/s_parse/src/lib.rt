//! The parser of scripts: the script that tokens spell, or the first token with which none goes on (`specs/`).
#![tactic(auto)]

mod declaration;
mod fault;
mod handler;
mod laws;
mod listed;
mod parameter;
mod parsing;
mod statement;

pub use fault::ParseFault;
pub use laws::one_answer;
pub use parsing::parse;
