//! A line of a trace.

use crate::event::Event;
use crate::trace::Ending;

/// A line of a trace.
#[derive(Clone, Copy, Debug, PartialEq, Eq)]
pub enum Line {
    /// An event.
    Event(Event),
    /// How many reductions the run took, and how it ended: the last line.
    End(u64, Ending),
}
