//! Each module that bytes spell has a text, and that text is of no other module.
#![tactic(auto)]

mod laws;

pub use laws::{one_text, spelled_fits, tags_are_few, text_keeps_module};
