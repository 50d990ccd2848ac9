//! The instructions that switch stacks, and the exit of a handle: each call takes just the reduction of the configurations in which the
//! chain of running segments and the store of continuations stand (`specs/`).
#![tactic(auto)]

mod captures;
mod continuations;
mod handles;
mod module_types;
mod stored;
mod switches;

pub use captures::suspend;
pub use continuations::{cont_bind, cont_new};
pub use handles::{exit_handle, resume};
pub use stored::Stored;
pub use switches::switch;
