//! Validation of modules: whole, or body by body as they are read.
#![tactic(auto)]

mod functions;
mod gradual;
mod judged_bodies;
mod module_types;
mod tables;
mod validation;

pub use gradual::Gradual;
pub use validation::validate;
pub use w_items::ValidFault;
