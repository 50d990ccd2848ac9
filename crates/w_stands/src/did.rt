//! What taking a reduction came to.

use w_reduce::Trap;

/// What a call that takes a reduction came to: it was taken, or it traps, and then nothing was changed.
#[derive(Clone, Copy, Debug, PartialEq, Eq)]
pub enum Did {
    Went,
    Trapped(Trap),
}
