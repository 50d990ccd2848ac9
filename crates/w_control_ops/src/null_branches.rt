//! Branches by whether a reference is null (Core, execution, control instructions).
ghost use Rattle.w_syntax.specs.declared.instructions.Instr.TheVariants as flat;
ghost use Rattle.w_syntax.specs.declared.instructions.Op.TheVariants as op;
ghost use Rattle.w_syntax.specs.declared.instructions.ControlOp.TheVariants as control;
ghost use Rattle.w_stands.specs.Keeps.{Keeps};
ghost use Rattle.w_stands.specs.Steps.{MovesAlone, FollowsAlone};
ghost use Rattle.w_stands.specs.declared.did.Did.TheVariants as did;

use crate::branch_steps::drop_and_branch;
use w_segment::Stack;
use w_stands::{drop_next, is_null};
use w_syntax::Module;

/// `br_on_null` (Core, execution, control instructions: br_on_null): the branch leaves the null.
#[inline(always)]
pub fn br_on_null(program: &Module, stack: &mut Stack, label: u32)
    requires moves { MovesAlone (flat.Plain (op.Control (control.BrOnNull label))) program.now stack.old }
    ensures goes { FollowsAlone did.Went program.now stack.old stack.new }
    ensures keeps { Keeps stack.old stack.new }
{
    let _program = program;
    if is_null(stack.peek()) {
        drop_and_branch(stack, label)
    } else {
        drop_next(stack, 0)
    }
}

/// `br_on_non_null` (Core, execution, control instructions: br_on_non_null): the branch takes the reference along.
#[inline(always)]
pub fn br_on_non_null(program: &Module, stack: &mut Stack, label: u32)
    requires moves { MovesAlone (flat.Plain (op.Control (control.BrOnNonNull label))) program.now stack.old }
    ensures goes { FollowsAlone did.Went program.now stack.old stack.new }
    ensures keeps { Keeps stack.old stack.new }
{
    let _program = program;
    if is_null(stack.peek()) {
        drop_next(stack, 1)
    } else {
        stack.branch(label)
    }
}
