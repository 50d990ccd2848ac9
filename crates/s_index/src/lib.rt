//! Where the declarations of a script and its types stand in the module that it is compiled to (`specs/`).
#![tactic(auto)]

mod counts;
mod declarations;
mod handled;
mod program;
mod table;
mod types;

pub use counts::Counts;
pub use program::Program;
pub use types::{
    COMPUTATION, COROUTINE, GROUP_TAG, PRINTER, RESUMPTION, clause_type, coroutine_local,
    effect_type, function_type, handler_type, resumption_local, val_type,
};
