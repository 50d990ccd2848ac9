//! Why tokens are no script.

use std::alloc::AllocError;
use thiserror::Error;

/// Why tokens are no script.
#[derive(Clone, Copy, Debug, PartialEq, Eq, Error)]
pub enum ParseFault {
    /// The least number of a token, from 0, such that no script begins with the tokens up to this one. The end of the file counts as the last
    /// token.
    #[error("no script begins with tokens 0 to {0}")]
    Parse(usize),
    /// A script could go on with a bracket that is the 65th one open.
    #[error("more than 64 brackets are open")]
    Deep,
    #[error("out of memory")]
    OutOfMemory,
}

impl From<AllocError> for ParseFault {
    ghost use Rattle.std.specs.Prelude.{◌≡◌};
    ghost use Rattle.s_parse.specs.declared.fault.ParseFault.TheVariants.{OutOfMemory};

    ghost from_gives = { λ _ e. e ≡ OutOfMemory };

    fn from(_: AllocError) -> Self {
        ParseFault::OutOfMemory
    }
}
