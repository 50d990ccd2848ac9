//! One segment of a running machine: its operands, labels, frames and locals, and the segment that waits for it (`specs/`).
#![tactic(auto)]

mod entry;
mod levels;
mod locals;
mod operands;
mod segment;
mod stack;
mod values;

pub use entry::{Entry, Stage};
pub use segment::Segment;
pub use stack::Stack;
