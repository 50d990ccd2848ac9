//! The words of the command line, and what they ask for.
#![tactic(auto)]

mod commands;
mod options;
mod reading;
mod request;

pub use options::{DEFAULT_STEPS, MOST_GENERATED, MOST_STEPS};
pub use reading::{WordsFault, request_of};
pub use request::{Action, Request, Takes};
