//! Control instructions that lead nowhere else (Core, execution, control instructions).
ghost use Rattle.w_syntax.specs.declared.instructions.Instr.TheVariants as flat;
ghost use Rattle.w_syntax.specs.declared.instructions.Op.TheVariants as op;
ghost use Rattle.w_syntax.specs.declared.instructions.ControlOp.TheVariants as control;
ghost use Rattle.w_stands.specs.Keeps.{Keeps};
ghost use Rattle.w_stands.specs.Steps.{MovesAlone, FollowsAlone};
ghost use Rattle.w_stands.specs.declared.did.Did.TheVariants as did;

use w_reduce::Trap;
use w_segment::Stack;
use w_stands::{Did, drop_next};
use w_syntax::Module;

/// `nop` (Core, execution, control instructions: nop).
#[inline(always)]
pub fn nop(program: &Module, stack: &mut Stack)
    requires moves { MovesAlone (flat.Plain (op.Control control.Nop)) program.now stack.old }
    ensures goes { FollowsAlone did.Went program.now stack.old stack.new }
    ensures keeps { Keeps stack.old stack.new }
{
    let _program = program;
    drop_next(stack, 0);
}

/// `unreachable` (Core, execution, control instructions: unreachable): it traps, and changes nothing.
#[inline(always)]
pub fn unreachable(program: &Module, stack: &Stack) -> Did
    requires moves { MovesAlone (flat.Plain (op.Control control.Unreachable)) program.now stack.now }
    ensures goes { FollowsAlone result program.now stack.now stack.now }
{
    let _program = program;
    let _stack = stack;
    Did::Trapped(Trap::Unreachable)
}
