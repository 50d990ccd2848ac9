//! What linking of several modules is (`specs/`), and its laws.
#![tactic(auto)]

mod laws;

pub use laws::{
    codes_are_of_files, files_fit, indices_are_read_through_instances, linked_is_sound,
    linked_runs_go_on, linked_starts_are_typed, one_file_runs,
};
