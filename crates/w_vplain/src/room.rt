//! Room that bodies are typed in.

use std::alloc::{AllocError, Global};
use w_flow::OperandList;
use w_steps::Frame;

/// So many lists at most are kept for blocks to come: more than most code nests.
const KEPT: usize = 16;

/// Lists that a checker kept, so that the next body is typed without asking for room anew. What they hold is forgotten.
#[derive(Drop)]
pub struct Room {
    pub(crate) operands: OperandList,
    // for the operands of the next blocks
    pub(crate) spare: Vec<OperandList>,
    pub(crate) outer: Vec<Frame>,
}

impl Room {
    /// No room yet.
    pub fn new(alloc: Global) -> Room {
        Room {
            operands: OperandList::new(alloc),
            spare: Vec::new(alloc),
            outer: Vec::new(alloc),
        }
    }
}

/// Room for the operands of a block: some that was kept, or new room.
pub(crate) fn spare_room(alloc: Global, spare: &mut Vec<OperandList>) -> OperandList {
    match spare.pop() {
        Some(room) => room,
        None => OperandList::new(alloc),
    }
}

/// Keeps room for blocks to come, where not much is kept. It fails only for want of memory.
pub(crate) fn keep_room(spare: &mut Vec<OperandList>, room: OperandList) -> Result<(), AllocError> {
    if spare.len() < KEPT {
        spare.push(room)?;
    }
    Ok(())
}
