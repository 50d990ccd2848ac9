//! Why a script has no module.

use std::alloc::AllocError;
use thiserror::Error;

/// Why a script has no module.
#[derive(Clone, Copy, Debug, PartialEq, Eq, Error)]
pub enum LowerFault {
    /// Its size is above 50,000.
    #[error("the script is too large")]
    TooLarge,
    #[error("out of memory")]
    OutOfMemory,
}

impl From<AllocError> for LowerFault {
    ghost use Rattle.std.specs.Prelude.{◌≡◌};
    ghost use Rattle.s_lower.specs.declared.fault.LowerFault.TheVariants.{OutOfMemory};

    ghost from_gives = { λ fault e. e ≡ OutOfMemory };

    fn from(_: AllocError) -> Self {
        LowerFault::OutOfMemory
    }
}
