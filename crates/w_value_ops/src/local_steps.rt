//! Instructions on locals (Core, execution, variable instructions).
ghost use Rattle.w_syntax.specs.declared.instructions.Instr.TheVariants as flat;
ghost use Rattle.w_syntax.specs.declared.instructions.Op.TheVariants as op;
ghost use Rattle.w_syntax.specs.declared.instructions.VariableOp.TheVariants as variable;
ghost use Rattle.w_stands.specs.Keeps.{Keeps};
ghost use Rattle.w_stands.specs.Steps.{MovesAlone, FollowsAlone, Stays};
ghost use Rattle.w_stands.specs.declared.did.Did.TheVariants as did;

use w_segment::Stack;
use w_stands::push_next;
use w_syntax::Module;

/// `local.get`.
#[inline(always)]
pub fn local_get(program: &Module, stack: &mut Stack, index: u32)
    requires moves { MovesAlone (flat.Plain (op.Variable (variable.LocalGet index))) program.now stack.old }
    ensures goes { FollowsAlone did.Went program.now stack.old stack.new }
    ensures keeps { Keeps stack.old stack.new }
    ensures stays { Stays stack.old stack.new }
{
    let _program = program;
    match stack.local_get(index) {
        Some(value) => push_next(stack, value),
        None => unreachable!(),
    }
}

/// `local.set`.
#[inline(always)]
pub fn local_set(program: &Module, stack: &mut Stack, index: u32)
    requires moves { MovesAlone (flat.Plain (op.Variable (variable.LocalSet index))) program.now stack.old }
    ensures goes { FollowsAlone did.Went program.now stack.old stack.new }
    ensures keeps { Keeps stack.old stack.new }
    ensures stays { Stays stack.old stack.new }
{
    let _program = program;
    let value = stack.pop();
    stack.local_set(index, value);
    stack.go(stack.place() + 1);
}

/// `local.tee`.
#[inline(always)]
pub fn local_tee(program: &Module, stack: &mut Stack, index: u32)
    requires moves { MovesAlone (flat.Plain (op.Variable (variable.LocalTee index))) program.now stack.old }
    ensures goes { FollowsAlone did.Went program.now stack.old stack.new }
    ensures keeps { Keeps stack.old stack.new }
    ensures stays { Stays stack.old stack.new }
{
    let _program = program;
    let value = stack.peek();
    stack.local_set(index, value);
    stack.go(stack.place() + 1);
}
