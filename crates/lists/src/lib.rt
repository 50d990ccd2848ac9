//! Small lists, as both languages keep them, and rows.
#![tactic(auto)]

mod list;

pub use list::ListOf;
