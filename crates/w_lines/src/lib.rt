//! The lines of texts of modules, each read and written (`specs/`).
#![tactic(auto)]

mod instructions;
mod line;
mod lines;
mod names;
mod parts;

pub use line::{Line, Mode};
pub use lines::line_of;
