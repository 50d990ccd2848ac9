//! Why a script is refused.

use crate::rule::Rule;
use std::alloc::AllocError;
use thiserror::Error;

/// Why a script is refused.
#[derive(Clone, Copy, Debug, PartialEq, Eq, Error)]
pub enum Refused {
    /// The least number of a declaration, from 0, that breaks a rule, and the least rule that it breaks. Where `main` alone is missing, the
    /// number is that of declarations.
    #[error("declaration {0} breaks a rule: {1:?}")]
    Rule(usize, Rule),
    #[error("out of memory")]
    OutOfMemory,
}

impl From<AllocError> for Refused {
    ghost use Rattle.std.specs.Prelude.{◌≡◌};
    ghost use Rattle.s_check.specs.declared.refused.Refused.TheVariants.{OutOfMemory};

    ghost from_gives = { λ _ e. e ≡ OutOfMemory };

    fn from(_: AllocError) -> Self {
        Refused::OutOfMemory
    }
}
