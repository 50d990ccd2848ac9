//! What a check of a module finds out about it.

use w_canon::Classes;

/// What a check of a module finds out about it, and what its runs need.
#[derive(Drop)]
pub struct Facts {
    /// Of each function that the module defines, the greatest number of operands at a counted place of its body.
    pub heights: Vec<u64>,
    /// Of each function that the module defines, one plus the greatest number of blocks around a place of its body.
    pub depths: Vec<u32>,
    /// Of each function, whether `ref.func` may name it. What is imported stands in front.
    pub declared: Vec<bool>,
    /// The classes of the module's types.
    pub classes: Classes,
}
