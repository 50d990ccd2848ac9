//! Calls: finding the function, entering one of the module, and those of the host (`specs/`).
#![tactic(auto)]

mod callees;
mod calls;
mod entering;
mod known_functions;
mod printers;

pub use callees::{CallKind, callee_by_reference, callee_by_table};
pub use calls::{call_own, invoke_own};
pub use entering::{enter_callee, room_for_callee};
pub use known_functions::{Callees, FunctionFacts, all_facts};
pub use printers::{argument, call_printer, invoke_printer, spelled};
