//! Types and values.
#![tactic(auto)]

mod groups;
mod packed_type;
mod types;
mod value;

pub use groups::RecGroups;
pub use packed_type::PackedType;
pub use types::{CompType, FuncType, HeapType, RecGroup, RefType, SubType, ValType};
pub use value::{ContRef, Value};
