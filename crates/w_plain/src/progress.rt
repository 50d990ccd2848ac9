//! What attempts come to.

/// What an attempt at a reduction comes to.
#[derive(Clone, Copy)]
pub enum Progress {
    /// It was taken, no function was called, and the stack stands in the body where it stood.
    Went,
    /// It was taken, no function was called, and the stack may stand elsewhere.
    Moved,
    /// It was taken, and entered a function: one frame more stands.
    Entered,
    /// It traps, and was not taken.
    Trapped,
    /// None was attempted: what is there is rarer.
    NotAttempted,
    /// There is no room for what it needs, and it was not taken.
    NoRoom,
}
