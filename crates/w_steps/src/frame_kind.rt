//! Kinds of blocks.

use w_syntax::{BlockKind, BlockType};

/// What kind of block is open, with its type: a function's body, a block or a loop, or a branch of an if.
#[derive(Clone, Copy)]
pub enum FrameKind {
    Body,
    Block(BlockKind, BlockType),
    Then(BlockType),
    Else(BlockType),
}
