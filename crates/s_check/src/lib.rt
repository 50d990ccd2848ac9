//! The rules of scripts: a script that breaks none, or the first declaration that breaks one, with the least rule that it breaks (`specs/`).
#![tactic(auto)]

mod arguments;
mod body;
mod bound;
mod checked;
mod coroutines;
mod declarations;
mod definition;
mod expression;
mod noted;
mod refused;
mod reviewing;
mod rule;
mod scope;
mod statement;

pub use checked::CheckedScript;
pub use refused::Refused;
pub use reviewing::review;
pub use rule::Rule;
