//! The program, over any files and sinks: what the words ask for, done with modules, scripts, texts and linked files, their runs, and
//! traces of runs.
#![tactic(auto)]

mod finishing;
mod in_memory;
mod laws;
mod linking;
mod program;
mod scripts;

pub use in_memory::command_on_bytes;
pub use laws::{
    answers_to_scripts_mean, audits_are_exact, build_is_idempotent, built_files_are_accepted,
    built_runs_are_alike, built_scripts_are_short, dumped_files_are_built, one_answer,
    runs_of_scripts_mean, some_answer, stopped_runs_of_scripts_mean,
};
pub use linking::{MOST_FILES, run_linked};
pub use program::command;
pub use replies::Status;
