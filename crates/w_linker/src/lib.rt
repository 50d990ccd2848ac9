//! Several files made one program: the addresses of all that they import and define, the module that they make, and where its run begins
//! (Core, execution, instantiation).
#![tactic(auto)]

mod entries;
mod imports;
mod laws;
mod limits;
mod linking;
mod program;
mod starting;

pub use laws::linked_continuations_are_consumed_once;
pub use linking::{LinkFault, Linked, link};
