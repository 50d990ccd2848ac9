//! The end of a segment.
ghost use Rattle.std.specs.Prelude.{◌≡◌};
ghost use Rattle.w_control_ops.specs.Ended.{ended};

use w_segment::{Stack, Stage};

/// Behind the outermost frame the operands are what the segment gives.
#[inline]
pub fn end_outside(stack: &mut Stack)
    ensures after { stack.new ≡ ended stack.old }
{
    if stack.is_outside() {
        stack.set_stage(Stage::Values);
    }
}
