//! A sink that keeps the front of what it takes, and counts all of it (`specs/`).
#![tactic(auto)]

mod front;
mod written;

pub use front::FrontSink;
