//! Why a list of events is refused.

use std::alloc::AllocError;
use thiserror::Error;

/// Why a list of events is refused.
#[derive(Clone, Copy, Debug, PartialEq, Eq, Error)]
pub enum OnceFault {
    /// The first event, from 0, that consumes a continuation which is not live by the events before it, or makes one whose address is
    /// not the next.
    #[error("event {0} consumes what is not live, or makes what is not the next")]
    Unsound(usize),
    #[error("out of memory")]
    OutOfMemory,
}

impl From<AllocError> for OnceFault {
    ghost use Rattle.std.specs.Prelude.{◌≡◌};
    ghost use Rattle.w_trace.specs.declared.fault.OnceFault.TheVariants.{OutOfMemory};

    ghost from_gives = { λ _ e. e ≡ OutOfMemory };

    fn from(_: AllocError) -> Self {
        OnceFault::OutOfMemory
    }
}
