//! What reductions come to that are taken one after another, with no sink at hand.

use crate::stop::RunStop;

/// How many reductions were taken, and what is then.
#[derive(Clone, Copy)]
pub struct Hastened {
    pub taken: u64,
    pub then: Then,
}

/// What is behind reductions that were taken.
#[derive(Clone, Copy)]
pub enum Then {
    /// As many were taken as were asked for, or it goes on.
    On,
    /// What comes next, if anything, is for another call.
    Left,
    /// The next reduction stopped the run. Before it so many continuations had been made, and so many of them weren't consumed.
    Stopped { stop: RunStop, made: u64, live: u64 },
}
