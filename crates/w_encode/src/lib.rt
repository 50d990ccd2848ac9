//! The canonical spelling of modules, which `specs/` defines.
#![tactic(auto)]

mod bodies;
mod fields;
mod functions;
mod instructions;
mod laws;
mod memory;
mod module;
mod numeric;
mod put;
mod segments;
mod types;

pub use laws::{canonical_spells, parts_spell};
pub use module::encode;
