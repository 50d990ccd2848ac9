//! Where the things of several files stand when they are linked: what they define, what each import stands for, and the instance of each
//! file (`specs/`).
#![tactic(auto)]

mod address;
mod counting;
mod definitions;
mod exports;
mod fitting;
mod imports;
mod instances;
mod placing;
mod types;

pub use definitions::{Definitions, define};
pub use placing::{Placing, place};
