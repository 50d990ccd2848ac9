//! Parametric instructions (Core, execution, parametric instructions).
ghost use Rattle.std.specs.Prelude.{◌≡◌};
ghost use Rattle.w_syntax.specs.declared.instructions.Instr.TheVariants as flat;
ghost use Rattle.w_syntax.specs.declared.instructions.Op.TheVariants as op;
ghost use Rattle.w_syntax.specs.declared.instructions.ParametricOp.TheVariants as parametric;
ghost use Rattle.w_reduce.specs.Parametric.{selected};
ghost use Rattle.w_stands.specs.Keeps.{Keeps};
ghost use Rattle.w_value_ops.specs.Selects.{IsSelect};
ghost use Rattle.w_stands.specs.Steps.{MovesAlone, FollowsAlone, Stays};
ghost use Rattle.w_stands.specs.declared.did.Did.TheVariants as did;

use w_segment::Stack;
use w_stands::{drop_next, i32_of, replace, top_three};
use w_syntax::{Module, ParametricOp};
use w_types::Value;

/// `drop`.
#[inline(always)]
pub fn drop_operand(program: &Module, stack: &mut Stack)
    requires moves { MovesAlone (flat.Plain (op.Parametric parametric.Drop)) program.now stack.old }
    ensures goes { FollowsAlone did.Went program.now stack.old stack.new }
    ensures keeps { Keeps stack.old stack.new }
    ensures stays { Stays stack.old stack.new }
{
    let _program = program;
    drop_next(stack, 1);
}

// The first where the number isn't 0, and else the second.
#[inline(always)]
fn chosen(number: u32, one: Value, other: Value) -> Value
    ensures { result ≡ selected number one other }
{
    if number != 0 { one } else { other }
}

/// `select`, with or without the type that it names.
#[inline(always)]
pub fn select(program: &Module, stack: &mut Stack, operation: &ParametricOp)
    requires moves { MovesAlone (flat.Plain (op.Parametric operation.now)) program.now stack.old }
    requires select { IsSelect operation.now }
    ensures goes { FollowsAlone did.Went program.now stack.old stack.new }
    ensures keeps { Keeps stack.old stack.new }
    ensures stays { Stays stack.old stack.new }
{
    let _program = program;
    let _operation = operation;
    let (one, other, number) = top_three(stack);
    let value = chosen(i32_of(number), one, other);
    replace(stack, 3, value);
}
