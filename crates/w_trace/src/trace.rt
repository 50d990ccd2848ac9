//! The trace of a run.

use crate::event::Event;
use lists::ListOf;
use w_reduce::{RunLimit, Trap};

/// How a run ends, as a trace tells it.
#[derive(Clone, Copy, Debug, PartialEq, Eq)]
pub enum Ending {
    /// The term is values.
    Ended,
    /// The last reduction trapped.
    Trapped(Trap),
    /// The result of the last reduction passed this limit.
    Limit(RunLimit),
    /// The reductions asked for were taken.
    Running,
}

/// The events of a run in order, how many reductions it took, and how it ended.
#[derive(Drop)]
pub struct Trace {
    pub events: ListOf<Event>,
    pub taken: u64,
    pub ending: Ending,
}
