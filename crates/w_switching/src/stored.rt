//! What is kept of each continuation.

use w_segment::Segment;

/// What the store keeps of a continuation that is not consumed (stack-switching explainer, continuations): how many values it takes, and
/// its segments, the innermost one with those that wait for it boxed inside.
#[derive(Drop)]
pub struct Stored {
    pub takes: u32,
    pub segment: Box<Segment>,
}
