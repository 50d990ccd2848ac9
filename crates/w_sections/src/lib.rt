//! Readers of the fields of sections that hold no code: types, imports, tags and exports.
#![tactic(auto)]

mod exports;
mod imports;
mod tags;
mod types;

pub use exports::{ExportField, externidx_at};
pub use imports::{ImportField, externtype_at};
pub use tags::{TagField, tag_at};
pub use types::{
    FuncTypeField, RecGroupField, RecGroupsField, SubTypeField, comptype_at, subtype_at,
};
