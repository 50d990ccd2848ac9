//! The limits of a run.

/// A quantity of a run that has a limit.
#[derive(Clone, Copy, Debug, PartialEq, Eq)]
pub enum RunLimit {
    /// Frames of a term: 20,000.
    Frames,
    /// Handles of a term: 1,000.
    Handles,
    /// Continuations that aren't consumed: 65,536.
    Conts,
}

/// A quantity that has a limit where a run begins.
#[derive(Clone, Copy, Debug, PartialEq, Eq)]
pub enum StartLimit {
    /// Pages of a memory: 256.
    Memory,
    /// Elements of a table: 1,048,576.
    Table,
}
