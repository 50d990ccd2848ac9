//! Open blocks. A frame is a `ctrl_frame` of the standard's validation algorithm, with the operands above its `val_height` in it; its
//! `init_height` is a mark of `Locals`.

use crate::frame_kind::FrameKind;
use w_flow::Flow;

/// An open block: its operands, and how many operands there are in the blocks around it, where its places are counted.
#[derive(Drop)]
pub struct Frame {
    pub kind: FrameKind,
    pub flow: Flow,
    pub base: Option<u64>,
}
