//! Why bytes are no text.

use std::alloc::AllocError;
use thiserror::Error;

/// Why bytes give no module.
#[derive(Clone, Copy, Debug, PartialEq, Eq, Error)]
pub enum TextFault {
    /// With this line, counted from 0, no text goes on. What stands behind the last line feed counts as a line, also where nothing
    /// does.
    #[error("no text goes on with line {0}")]
    Line(usize),
    #[error("out of memory")]
    OutOfMemory,
}

impl From<AllocError> for TextFault {
    ghost use Rattle.std.specs.Prelude.{◌≡◌};
    ghost use Rattle.w_text.specs.declared.fault.TextFault.TheVariants.{OutOfMemory};

    ghost from_gives = { λ _ e. e ≡ OutOfMemory };

    fn from(_: AllocError) -> Self {
        TextFault::OutOfMemory
    }
}
