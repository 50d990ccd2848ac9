//! Addresses in the place of the indices of one file, so that several files stand in one module (`specs/`).
#![tactic(auto)]

mod bodies;
mod functions;
mod instance;
mod instructions;
mod items;
mod packed;
mod segments;
mod types;

pub use bodies::resolve_body;
pub use functions::append_codes;
pub use instance::{ModuleInstance, at, shifted};
pub use items::{
    append_exports, append_function_types, append_globals, append_tables, append_tags,
};
pub use packed::resolve_packed;
pub use segments::{append_datas, append_elements};
pub use types::{append_groups, resolve_groups};
