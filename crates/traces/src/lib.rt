//! Traces of runs, written and audited.
#![tactic(auto)]

mod auditing;
mod comparing;
mod stepping;
mod tracing;

pub use auditing::audit;
pub use tracing::trace;
