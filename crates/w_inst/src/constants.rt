//! The values of constant expressions. They ask only for the number of functions and for the globals so far.
ghost use Rattle.std.specs.Prelude.{◌≡◌, ℕ, Ok, Some, IfOk, IsTrue, slice_get};
ghost use Rattle.lists.specs.Rows.{Row};
ghost use Rattle.w_types.specs.declared.value.Value.TheVariants as value;
ghost use Rattle.w_syntax.specs.declared.instructions.Op.TheVariants as ops;
ghost use Rattle.w_syntax.specs.declared.numeric.IntType.TheVariants as int;
ghost use Rattle.w_syntax.specs.declared.numeric.NumericOp.TheVariants as numeric;
ghost use Rattle.w_syntax.specs.Packed.{OnPlain, unpacked};
ghost use Rattle.w_rules.specs.Bodies.{is_const_binary};
ghost use Rattle.w_num.specs.Signed.{inverse};
ghost use Rattle.w_reduce.specs.Values.{Val, val};
ghost use Rattle.w_reduce.specs.Store.{Store as TheStore};
ghost use Rattle.w_reduce.specs.Program.{Program};
ghost use Rattle.w_reduce.specs.Reduced.{Reduced, as_number, take_number, or_stuck};
ghost use Rattle.w_reduce.specs.Numeric.{binop};
ghost use Rattle.w_reduce.specs.Constants.{value_of, topmost as topmost_of};
ghost use Rattle.w_inst.specs.Constants.{MayBeConstant, IsConstant, Sees, AlwaysLeaves, Leaves, LeavesAt, row};

use std::alloc::{AllocError, Global};
use w_num::{i32_add, i32_mul, i32_sub, i64_add, i64_mul, i64_sub};
use w_syntax::{Binop, Body, Instr, IntType, NumericOp, Op, PackedInstr, ReferenceOp, VariableOp};
use w_types::Value;

// The number, where the value is an i32.
fn i32_in(value: Value) -> Option<u32>
    ensures { (go : ℕ → Reduced) → as_number int.I32 (val value) go ≡ or_stuck result go }
{
    match value {
        Value::I32(bits) => Some(bits),
        _ => None,
    }
}

// The number, where the value is an i64.
fn i64_in(value: Value) -> Option<u64>
    ensures { (go : ℕ → Reduced) → as_number int.I64 (val value) go ≡ or_stuck result go }
{
    match value {
        Value::I64(bits) => Some(bits),
        _ => None,
    }
}

// Takes the topmost operand, and answers its number where it is an i32.
fn take_i32(operands: &mut Vec<Value>) -> Option<u32>
    ensures { (go : Row Val × ℕ → Reduced) → take_number int.I32 (row operands.old.items) go ≡ or_stuck result (λ n. go (row operands.new.items, n)) }
{
    match operands.pop() {
        Some(value) => i32_in(value),
        None => None,
    }
}

// Takes the topmost operand, and answers its number where it is an i64.
fn take_i64(operands: &mut Vec<Value>) -> Option<u64>
    ensures { (go : Row Val × ℕ → Reduced) → take_number int.I64 (row operands.old.items) go ≡ or_stuck result (λ n. go (row operands.new.items, n)) }
{
    match operands.pop() {
        Some(value) => i64_in(value),
        None => None,
    }
}

fn binary_i32(op: Binop, a: u32, b: u32) -> u32
    requires { IsTrue (is_const_binary op) }
    ensures { binop op 32 a b ≡ Ok result }
{
    match op {
        Binop::Add => i32_add(a, b),
        Binop::Sub => i32_sub(a, b),
        _ => i32_mul(a, b),
    }
}

fn binary_i64(op: Binop, a: u64, b: u64) -> u64
    requires { IsTrue (is_const_binary op) }
    ensures { binop op 64 a b ≡ Ok result }
{
    match op {
        Binop::Add => i64_add(a, b),
        Binop::Sub => i64_sub(a, b),
        _ => i64_mul(a, b),
    }
}

// An operator of i32, on the two topmost operands.
fn reduce_i32(operands: &mut Vec<Value>, op: Binop) -> Result<bool, AllocError>
    requires constant { IsTrue (is_const_binary op) }
    ensures leaves { IfOk result (λ went. AlwaysLeaves (ops.Numeric (numeric.Binary int.I32 op)) operands.old.items went operands.new.items) }
{
    let Some(b) = take_i32(operands) else {
        return Ok(false);
    };
    let Some(a) = take_i32(operands) else {
        return Ok(false);
    };
    operands.push(Value::I32(binary_i32(op, a, b)))?;
    Ok(true)
}

// An operator of i64, on the two topmost operands.
fn reduce_i64(operands: &mut Vec<Value>, op: Binop) -> Result<bool, AllocError>
    requires constant { IsTrue (is_const_binary op) }
    ensures leaves { IfOk result (λ went. AlwaysLeaves (ops.Numeric (numeric.Binary int.I64 op)) operands.old.items went operands.new.items) }
{
    let Some(b) = take_i64(operands) else {
        return Ok(false);
    };
    let Some(a) = take_i64(operands) else {
        return Ok(false);
    };
    operands.push(Value::I64(binary_i64(op, a, b)))?;
    Ok(true)
}

fn reduce_binary(operands: &mut Vec<Value>, kind: IntType, op: Binop) -> Result<bool, AllocError>
    requires constant { IsTrue (is_const_binary op) }
    ensures leaves { IfOk result (λ went. AlwaysLeaves (ops.Numeric (numeric.Binary kind op)) operands.old.items went operands.new.items) }
{
    match kind {
        IntType::I32 => reduce_i32(operands, op),
        IntType::I64 => reduce_i64(operands, op),
    }
}

// The bits of a number that is spelled as a signed one.
fn bits_of_i32(number: i32) -> u32
    ensures { result ≡ inverse 32 number }
{
    number.cast_unsigned()
}

fn bits_of_i64(number: i64) -> u64
    ensures { result ≡ inverse 64 number }
{
    number.cast_unsigned()
}

// `i32.const`
fn put_i32(operands: &mut Vec<Value>, number: i32) -> Result<bool, AllocError>
    ensures leaves { IfOk result (λ went. AlwaysLeaves (ops.Numeric (numeric.I32Const number)) operands.old.items went operands.new.items) }
{
    operands.push(Value::I32(bits_of_i32(number)))?;
    Ok(true)
}

// `i64.const`
fn put_i64(operands: &mut Vec<Value>, number: i64) -> Result<bool, AllocError>
    ensures leaves { IfOk result (λ went. AlwaysLeaves (ops.Numeric (numeric.I64Const number)) operands.old.items went operands.new.items) }
{
    operands.push(Value::I64(bits_of_i64(number)))?;
    Ok(true)
}

fn reduce_number(operands: &mut Vec<Value>, number: NumericOp) -> Result<bool, AllocError>
    requires constant { MayBeConstant (ops.Numeric number) }
    ensures leaves { IfOk result (λ went. AlwaysLeaves (ops.Numeric number) operands.old.items went operands.new.items) }
{
    match number {
        NumericOp::I32Const(number) => put_i32(operands, number),
        NumericOp::I64Const(number) => put_i64(operands, number),
        NumericOp::Binary(kind, op) => reduce_binary(operands, kind, op),
        _ => Ok(false),
    }
}

// `ref.func` goes on where the function is there.
fn reduce_reference(
    operands: &mut Vec<Value>,
    reference: ReferenceOp,
    globals: &[Value],
    functions: usize,
) -> Result<bool, AllocError>
    requires constant { MayBeConstant (ops.Reference reference) }
    ensures leaves { IfOk result (λ went. Leaves globals.now functions (ops.Reference reference) operands.old.items went operands.new.items) }
{
    match reference {
        ReferenceOp::Null(_) => {
            operands.push(Value::Null)?;
            Ok(true)
        }
        ReferenceOp::Func(function) => {
            if function as usize >= functions {
                return Ok(false);
            }
            operands.push(Value::Func(function))?;
            Ok(true)
        }
        _ => Ok(false),
    }
}

// The global of this index, where there is one.
fn global_at(globals: &[Value], global: u32) -> Option<Value>
    ensures { result ≡ slice_get globals.now global }
{
    globals.get(global as usize).copied()
}

fn reduce_variable(
    operands: &mut Vec<Value>,
    variable: VariableOp,
    globals: &[Value],
    functions: usize,
) -> Result<bool, AllocError>
    requires constant { MayBeConstant (ops.Variable variable) }
    ensures leaves { IfOk result (λ went. Leaves globals.now functions (ops.Variable variable) operands.old.items went operands.new.items) }
{
    match variable {
        VariableOp::GlobalGet(global) => {
            let Some(value) = global_at(globals, global) else {
                return Ok(false);
            };
            operands.push(value)?;
            Ok(true)
        }
        _ => Ok(false),
    }
}

// An instruction of a constant expression. It answers whether a rule applied.
fn reduce(
    operands: &mut Vec<Value>,
    op: &Op,
    globals: &[Value],
    functions: usize,
) -> Result<bool, AllocError>
    requires constant { MayBeConstant op.now }
    ensures leaves { IfOk result (λ went. Leaves globals.now functions op.now operands.old.items went operands.new.items) }
{
    match op {
        Op::Numeric(number) => reduce_number(operands, *number),
        Op::Reference(reference) => reduce_reference(operands, *reference, globals, functions),
        Op::Variable(variable) => reduce_variable(operands, *variable, globals, functions),
        _ => Ok(false),
    }
}

// An instruction in the list of a constant expression. A mark of the nesting, as the end, changes nothing.
fn reduce_instr(
    operands: &mut Vec<Value>,
    instr: &Instr,
    globals: &[Value],
    functions: usize,
) -> Result<bool, AllocError>
    requires constant { OnPlain MayBeConstant instr.now }
    ensures leaves { IfOk result (λ went. LeavesAt globals.now functions instr.now operands.old.items went operands.new.items) }
{
    match instr {
        Instr::Plain(op) => reduce(operands, op, globals, functions),
        _ => Ok(true),
    }
}

// A packed one.
fn reduce_packed(
    operands: &mut Vec<Value>,
    packed: &PackedInstr,
    globals: &[Value],
    functions: usize,
) -> Result<bool, AllocError>
    requires constant { OnPlain MayBeConstant (unpacked packed.now) }
    ensures leaves { IfOk result (λ went. LeavesAt globals.now functions (unpacked packed.now) operands.old.items went operands.new.items) }
{
    let view = packed.view();
    reduce_instr(operands, view.instr(), globals, functions)
}

// Takes the topmost operand, or answers null where there is none.
#[tactic(auto, using(crate::proofs::Operands::row_more))]
fn take_topmost(operands: &mut Vec<Value>) -> Value
    ensures { topmost_of (Some (row operands.old.items)) ≡ val result }
{
    match operands.pop() {
        Some(value) => value,
        None => Value::Null,
    }
}

/// The value of a constant expression, which sees so many functions and these globals (Core, execution, instantiation): null where no
/// rule applies to one of its instructions. It fails only for want of memory.
pub(crate) fn constant(
    alloc: Global,
    code: &Body,
    globals: &[Value],
    functions: usize,
) -> Result<Value, AllocError>
    requires constant { IsConstant code.now }
    ensures value { IfOk result (λ v. (p : Program) (s : TheStore) → Sees globals.now functions s → value_of p s code.now ≡ val v) }
{
    let mut operands = Vec::new(alloc);
    for packed in code.instrs() {
        if !reduce_packed(&mut operands, packed, globals, functions)? {
            return Ok(Value::Null);
        }
    }
    Ok(take_topmost(&mut operands))
}
