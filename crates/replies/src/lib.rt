//! What the program replies: the answer to a line as the specification has it (`specs/Answer.antt`), the lines that are written, statuses,
//! and why there is no output.
#![tactic(auto)]

mod file_kind;
mod lines;
mod origin;
mod output;
mod status;
mod stop;

pub use file_kind::FileKind;
pub use lines::{
    audit_line, differs_line, file_text, import_line, invalid_line, malformed_line, no_trace_line,
    printer_line, run_limit_line, script_line, start_limit_line, stats_line, unsound_line,
    value_line, wrong_line,
};
pub use origin::Origin;
pub use output::Output;
pub use status::Status;
pub use stop::{Refusal, Stop, in_file, refuse, refuse_by, with_err};
