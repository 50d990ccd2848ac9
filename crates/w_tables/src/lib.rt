//! The store of a run: functions, tables, memories, globals, tags, and element and data segments (`specs/`).
#![tactic(auto)]

mod adding;
mod elements;
mod entries;
mod globals;
mod memories;
mod segments;
mod store;
mod tables;

pub use entries::{FuncEntry, Printer};
pub use store::Store;
