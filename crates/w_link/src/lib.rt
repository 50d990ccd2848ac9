//! The types and the code of a file among those of all files that are linked (`specs/`).
#![tactic(auto)]

mod laws;

pub use laws::{
    code_is_typed_among_all, heights_and_depths_are_same, instructions_take_more_and_give_less,
    types_stand_among_all, whole_instances_change_nothing,
};
