//! Numeric instructions (Core, execution, numeric instructions).
ghost use Rattle.std.specs.Prelude.{◌≡◌, Bool, true};
ghost use Rattle.w_syntax.specs.declared.instructions.Instr.TheVariants as flat;
ghost use Rattle.w_syntax.specs.declared.instructions.Op.TheVariants as op;
ghost use Rattle.w_syntax.specs.declared.numeric.NumericOp.TheVariants as numeric;
ghost use Rattle.w_reduce.specs.Reduced.{trap_of};
ghost use Rattle.w_reduce.specs.Room.{gives_one};
ghost use Rattle.w_stands.specs.Keeps.{Keeps, OnPlain};
ghost use Rattle.w_types.specs.declared.value.Value.{Value as TheValue};
ghost use Rattle.w_value_ops.specs.Rules.{IsGiving};
ghost use Rattle.w_stands.specs.Steps.{MovesAlone, FollowsAlone, Stays};
ghost use Rattle.w_stands.specs.declared.did.Did.TheVariants as did;

use crate::numbers::{compared, converted, eqz_of, joined, unary_of};
use w_num::NumFault;
use w_reduce::Trap;
use w_segment::Stack;
use w_stands::{Did, push_next, replace, top_two};
use w_syntax::{Binop, Cvtop, IntType, Module, NumericOp, Relop, Unop};
use w_types::Value;

// A unary operator.
#[inline(always)]
fn unary(program: &Module, stack: &mut Stack, kind: IntType, operation: Unop)
    requires moves { MovesAlone (flat.Plain (op.Numeric (numeric.Unary kind operation))) program.now stack.old }
    ensures goes { FollowsAlone did.Went program.now stack.old stack.new }
    ensures keeps { Keeps stack.old stack.new }
    ensures stays { Stays stack.old stack.new }
{
    let _program = program;
    let value = unary_of(kind, operation, stack.peek());
    replace(stack, 1, value);
}

// The test whether a number is 0.
#[inline(always)]
fn eqz(program: &Module, stack: &mut Stack, kind: IntType)
    requires moves { MovesAlone (flat.Plain (op.Numeric (numeric.Eqz kind))) program.now stack.old }
    ensures goes { FollowsAlone did.Went program.now stack.old stack.new }
    ensures keeps { Keeps stack.old stack.new }
    ensures stays { Stays stack.old stack.new }
{
    let _program = program;
    let value = eqz_of(kind, stack.peek());
    replace(stack, 1, value);
}

// A conversion.
#[inline(always)]
fn convert(program: &Module, stack: &mut Stack, operation: Cvtop)
    requires moves { MovesAlone (flat.Plain (op.Numeric (numeric.Convert operation))) program.now stack.old }
    ensures goes { FollowsAlone did.Went program.now stack.old stack.new }
    ensures keeps { Keeps stack.old stack.new }
    ensures stays { Stays stack.old stack.new }
{
    let _program = program;
    let value = converted(operation, stack.peek());
    replace(stack, 1, value);
}

// A comparison.
#[inline(always)]
fn compare(program: &Module, stack: &mut Stack, kind: IntType, operation: Relop)
    requires moves { MovesAlone (flat.Plain (op.Numeric (numeric.Compare kind operation))) program.now stack.old }
    ensures goes { FollowsAlone did.Went program.now stack.old stack.new }
    ensures keeps { Keeps stack.old stack.new }
    ensures stays { Stays stack.old stack.new }
{
    let _program = program;
    let (below, top) = top_two(stack);
    let value = compared(kind, operation, below, top);
    replace(stack, 2, value);
}

// A binary operator, or its trap.
#[inline(always)]
fn binary(program: &Module, stack: &mut Stack, kind: IntType, operation: Binop) -> Did
    requires moves { MovesAlone (flat.Plain (op.Numeric (numeric.Binary kind operation))) program.now stack.old }
    ensures goes { FollowsAlone result program.now stack.old stack.new }
    ensures keeps { Keeps stack.old stack.new }
    ensures stays { Stays stack.old stack.new }
{
    let _program = program;
    let (below, top) = top_two(stack);
    match joined(kind, operation, below, top) {
        Ok(value) => {
            replace(stack, 2, value);
            Did::Went
        }
        Err(fault) => Did::Trapped(trap_of(fault)),
    }
}

// A constant.
#[inline(always)]
fn constant(program: &Module, stack: &mut Stack, operation: NumericOp, value: Value)
    requires moves { MovesAlone (flat.Plain (op.Numeric operation)) program.now stack.old }
    requires one { gives_one (op.Numeric operation) ≡ true }
    requires gives { IsGiving (op.Numeric operation) value }
    requires plain { (test : TheValue → Bool) → OnPlain test → test value ≡ true }
    ensures goes { FollowsAlone did.Went program.now stack.old stack.new }
    ensures keeps { Keeps stack.old stack.new }
    ensures stays { Stays stack.old stack.new }
{
    let _program = program;
    let _operation = operation;
    push_next(stack, value);
}

// The trap of a fault.
#[inline(always)]
fn trap_of(fault: NumFault) -> Trap
    ensures { result ≡ trap_of fault }
{
    match fault {
        NumFault::DivZero => Trap::DivideByZero,
        NumFault::Overflow => Trap::IntegerOverflow,
    }
}

/// One reduction of a numeric instruction, or its trap.
#[inline(always)]
pub fn numeric(program: &Module, stack: &mut Stack, operation: NumericOp) -> Did
    requires moves { MovesAlone (flat.Plain (op.Numeric operation)) program.now stack.old }
    ensures goes { FollowsAlone result program.now stack.old stack.new }
    ensures keeps { Keeps stack.old stack.new }
    ensures stays { Stays stack.old stack.new }
{
    match operation {
        NumericOp::I32Const(number) => {
            constant(
                program,
                stack,
                operation,
                Value::I32(number.cast_unsigned()),
            );
            Did::Went
        }
        NumericOp::I64Const(number) => {
            constant(
                program,
                stack,
                operation,
                Value::I64(number.cast_unsigned()),
            );
            Did::Went
        }
        NumericOp::Eqz(kind) => {
            eqz(program, stack, kind);
            Did::Went
        }
        NumericOp::Compare(kind, operation) => {
            compare(program, stack, kind, operation);
            Did::Went
        }
        NumericOp::Unary(kind, operation) => {
            unary(program, stack, kind, operation);
            Did::Went
        }
        NumericOp::Binary(kind, operation) => binary(program, stack, kind, operation),
        NumericOp::Convert(operation) => {
            convert(program, stack, operation);
            Did::Went
        }
    }
}
