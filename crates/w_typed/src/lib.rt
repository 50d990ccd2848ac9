//! Typed configurations: the types of values, stores, contexts and terms (`specs/`), which each reduction keeps.
#![tactic(auto)]

mod laws;

pub use laws::{
    captures_are_typed, frames_hold_no_more, kept_contexts_are_terms, next_has_room,
    nexts_are_safe, reductions_are_safe, runs_are_typed, starts_are_typed,
};
