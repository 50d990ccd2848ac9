//! Validity of the items of a module, all but its functions (Core, validation, modules).
#![tactic(auto)]

mod by_index;
mod context;
mod datas;
mod definitions;
mod elements;
mod exports;
mod fault;
mod globals;
mod imports;
mod indexed;
mod limits;
mod memories;
mod start;
mod tables;
mod tags;
mod types;

pub use by_index::item_at;
pub use context::ModuleContext;
pub use definitions::first_invalid_item;
pub use fault::ValidFault;
