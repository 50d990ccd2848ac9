//! The meaning of scripts (`specs/`): handlers are deep (Plotkin and Pretnar, Handling Algebraic Effects), and a reference to a resumption or to a
//! coroutine is used once at most.
#![tactic(auto)]

mod laws;

pub use laws::{
    good_scripts_are_never_wrong, tail_calls_keep_activations, typed_configurations_stay_typed,
};
