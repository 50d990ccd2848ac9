//! What stands for a configuration, and its reductions: one of any kind, and common ones one after another.
#![tactic(auto)]

mod common;
mod configuration;
mod events;
mod hastened;
mod reduction;
mod stop;

pub use common::hasten;
pub use configuration::Configuration;
pub use events::next_event;
pub use hastened::{Hastened, Then};
pub use reduction::{end_of, reduce};
pub use stop::RunStop;
