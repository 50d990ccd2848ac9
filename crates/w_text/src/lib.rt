//! The texts of modules: one line after the other (`specs/`).
#![tactic(auto)]

mod assembling;
mod assembly;
mod dumping;
mod fault;
mod item;
mod laws;
mod pending;
mod putting;
mod runs;

pub use assembling::asm;
pub use dumping::dump;
pub use fault::TextFault;
pub use laws::{one_module, texts_are_right};
