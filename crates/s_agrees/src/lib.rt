//! The compiler of scripts keeps their meaning: a script agrees with its module, whose runs follow the script (`specs/`).
#![tactic(auto)]

mod laws;

pub use laws::{runs_of_scripts_follow, scripts_agree};
