//! What instructions do to the operands of the block that they stand in (`specs/`): all but those that switch stacks.
#![tactic(auto)]

mod body_context;
mod frame;
mod frame_kind;
mod setting;
mod steps;

pub use body_context::{BodyContext, arrow, label_of};
pub use frame::Frame;
pub use frame_kind::FrameKind;
pub use setting::Setting;
pub use steps::packed_step;
