//! The events of a run's continuations, and whether each continuation is used once (`specs/`).
#![tactic(auto)]

mod ending_texts;
mod ending_words;
mod event;
mod fault;
mod laws;
mod line;
mod line_words;
mod one_use;
mod putting;
mod reading;
mod trace;
mod trace_fault;

pub use ending_texts::{run_limit_text, trap_name};
pub use event::{Event, EventKind};
pub use fault::OnceFault;
pub use laws::{
    events_are_one_shot, events_consume, events_lead, first_parts_are_one_shot, one_shot_exactly,
    one_trace, redexes_tell, runs_are_one_shot, traces_are_right, traces_fit,
};
pub use line::Line;
pub use one_use::once;
pub use putting::{put_end, put_event};
pub use reading::read_events;
pub use trace::{Ending, Trace};
pub use trace_fault::TraceFault;
