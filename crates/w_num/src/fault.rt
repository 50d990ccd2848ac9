//! Why an integer operation has no result.
use thiserror::Error;

/// What a division traps with (Core, execution, numeric instructions).
#[derive(Clone, Copy, Debug, PartialEq, Eq, Error)]
pub enum NumFault {
    /// The divisor is 0.
    #[error("integer divide by zero")]
    DivZero,
    /// The quotient is no number of the width.
    #[error("integer overflow")]
    Overflow,
}
