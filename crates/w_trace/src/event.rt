//! The events of a run's continuations.

/// What a reduction does with continuations, each by its address, and tags, each by its index (stack-switching explainer,
/// execution).
#[derive(Clone, Copy, Debug, PartialEq, Eq)]
pub enum EventKind {
    /// `cont.new` makes one.
    New(u64),
    /// `cont.bind` consumes one and makes one.
    Bind(u64, u64),
    /// `resume` consumes one.
    Resume(u64),
    /// `suspend` with a tag makes one.
    Suspend(u32, u64),
    /// `switch` consumes one, with a tag, and makes one.
    Switch(u64, u32, u64),
    /// Values leave a handle.
    Exit,
}

/// An event, and the number of its reduction, from 1.
#[derive(Clone, Copy, Debug, PartialEq, Eq)]
pub struct Event {
    pub step: u64,
    pub kind: EventKind,
}
