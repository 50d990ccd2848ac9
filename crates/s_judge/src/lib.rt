//! The judgement on the bytes of a script: the script that they spell, where it breaks no rule, or why there is none (`specs/`).
#![tactic(auto)]

mod fault;
mod judging;
mod laws;

pub use fault::ScriptFault;
pub use judging::judge;
pub use laws::{one_judgement, some_judgement};
