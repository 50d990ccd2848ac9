//! Equivalence of the types of a module, and matching, which rests on it (`specs/`).
#![tactic(auto)]

mod classes;
mod entry;
mod equality;
mod forest;
mod key;
mod laws;
mod matching;
mod rows;
mod shape;

pub use classes::Classes;
pub use entry::{Entry, Kind};
pub use forest::Span;
pub use laws::{
    composites_of_matching_indices_match, equivalent_types_have_equivalent_supertypes,
    func_matching_is_a_preorder, index_matching_is_a_preorder, result_matching_is_a_preorder,
    same_is_an_equivalence, val_matching_is_a_preorder,
};
