//! Exits of labels and frames (Core, execution, exiting a block and returning from a function).
ghost use Rattle.std.specs.Prelude.{◌≡◌};
ghost use Rattle.w_syntax.specs.declared.instructions.Instr.TheVariants as flat;
ghost use Rattle.w_stands.specs.Keeps.{Keeps};
ghost use Rattle.w_stands.specs.Code.{instr_of};
ghost use Rattle.w_stands.specs.Steps.{FollowsAlone};
ghost use Rattle.w_stands.specs.declared.did.Did.TheVariants as did;
ghost use Rattle.w_control_ops.specs.Exits.{ExitsAlone, IsEnd};

use crate::outside::end_outside;
use w_segment::Stack;
use w_syntax::Module;

/// Leaves the innermost label or frame at an `end`, or behind the last instruction: a label for the place behind its end, a frame for
/// where its caller goes on (Core, execution, exiting a block; returning from a function).
#[inline(always)]
pub fn exit_end(program: &Module, stack: &mut Stack)
    requires exits { ExitsAlone program.now stack.old }
    requires end { IsEnd (instr_of program.now stack.old.func stack.old.place) }
    ensures goes { FollowsAlone did.Went program.now stack.old stack.new }
    ensures keeps { Keeps stack.old stack.new }
{
    let _program = program;
    let place = stack.place();
    if stack.leave() {
        stack.go(place + 1)
    } else {
        end_outside(stack)
    }
}

/// Leaves the innermost label at an `else`: for the place where it leads, behind the if (Core, execution, exiting a block).
#[inline(always)]
pub fn exit_else(program: &Module, stack: &mut Stack)
    requires exits { ExitsAlone program.now stack.old }
    requires otherwise { instr_of program.now stack.old.func stack.old.place ≡ Some flat.Else }
    ensures goes { FollowsAlone did.Went program.now stack.old stack.new }
    ensures keeps { Keeps stack.old stack.new }
{
    let _program = program;
    let target = stack.target();
    let _label = stack.leave();
    stack.go(target);
}
