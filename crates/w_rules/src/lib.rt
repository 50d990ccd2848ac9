//! The typing rules, the limits on a module's size, and modules that were found to keep both (`specs/`).
#![tactic(auto)]

mod checked;
mod context;
mod facts;
mod functions;
mod laws;
mod limits;
mod named_datas;
mod named_functions;
mod runnable;
mod spaces;
mod types;

pub use checked::Checked;
pub use context::Context;
pub use facts::Facts;
pub use functions::{func_type, function_type};
pub use laws::{
    joining_keeps_types, matching_in_valid_modules_is_a_preorder, one_typing,
    typed_by_what_is_named,
};
pub use limits::{SizeLimit, keeps_locals, keeps_type_limits, limits_of};
pub use named_datas::data_needs;
pub use named_functions::declared_functions;
pub use runnable::Runnable;
pub use spaces::Spaces;
pub use types::{has_heap, has_type};
