//! Readers of the fields that sections and code have in common: lists, names and types.
#![tactic(auto)]

mod fields;
mod limits;
mod names;
mod types;

pub use fields::{Field, IndexField, field_at, list_of, sized_at, vec_at, whole_of};
pub use limits::{LimitsField, globaltype_at, limits_at, tabletype_at};
pub use names::{NameField, has_name, name_at};
pub use types::{
    HeapTypeField, RefTypeField, ValTypeField, heaptype_at, index_at, reftype_at, valtype_at,
};
