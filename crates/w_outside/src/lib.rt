//! What a program is lent of the outside: files that it may read, and sinks that it may write to.
//!
//! Contracts name what files and sinks tell of their contents, and how often a call on them has failed. The forms over
//! memory tell all; the forms over the machine tell nothing, and are the trusted edge.
#![tactic(auto)]

mod fault_plan;
mod files;
mod host;
mod memory;
mod offer;
mod sure;
mod traits;
mod void;

pub use host::{HostInputs, HostSink};
pub use memory::{MemInputs, MemSink};
pub use offer::put;
pub use sure::{SureInputs, SureSink};
pub use traits::{Fault, Inputs, Sink};
pub use void::Void;
