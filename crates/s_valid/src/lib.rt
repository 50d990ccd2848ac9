//! Laws of the modules of scripts: that they are valid, that their spelling is short, and that their runs begin (`specs/`).
#![tactic(auto)]

mod laws;

pub use laws::{
    modules_of_scripts_are_valid, runs_of_scripts_begin, spellings_of_scripts_are_short,
};
