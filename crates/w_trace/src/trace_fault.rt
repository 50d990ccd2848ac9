//! Why bytes are refused that are to be the text of a trace.

use std::alloc::AllocError;
use thiserror::Error;

/// Why bytes are refused that are to be the text of a trace.
#[derive(Clone, Copy, Debug, PartialEq, Eq, Error)]
pub enum TraceFault {
    /// The first line, from 0, with which no text of a trace goes on.
    #[error("no text of a trace goes on with line {0}")]
    Line(usize),
    #[error("out of memory")]
    OutOfMemory,
}

impl From<AllocError> for TraceFault {
    ghost use Rattle.std.specs.Prelude.{◌≡◌};
    ghost use Rattle.w_trace.specs.declared.trace_fault.TraceFault.TheVariants.{OutOfMemory};

    ghost from_gives = { λ _ e. e ≡ OutOfMemory };

    fn from(_: AllocError) -> Self {
        TraceFault::OutOfMemory
    }
}
