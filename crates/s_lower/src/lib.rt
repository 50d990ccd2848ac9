//! The compiler of scripts: the module of a script that breaks no rule (`s_code/specs/Lowered.antt` says which).
#![tactic(auto)]

mod code;
mod fault;
mod lowering;
mod names;
mod parts;

pub use fault::LowerFault;
pub use lowering::{SIZE_LIMIT, lower};
