//! The lines of numeric and memory instructions.
ghost use Rattle.std.specs.Prelude.{◌≡◌, ◌++◌, ℕ, OnOk};
ghost use Rattle.w_syntax.specs.declared.memory_instructions.MemArg.{MemArg as TheMemArg};
ghost use Rattle.w_syntax.specs.declared.memory_instructions.MemoryOp.TheVariants as memory;
ghost use Rattle.w_syntax.specs.declared.numeric.NumericOp.TheVariants as numeric;
ghost use Rattle.w_syntax.specs.declared.instructions.Op.TheVariants as op;
ghost use Rattle.w_syntax.specs.declared.instructions.Token.TheVariants as tok;
ghost use Rattle.w_lines.specs.Instructions.{token_name, two_words};
ghost use Rattle.w_lines.specs.Written.{token_bytes, named_bytes};

use crate::named::{put_alone, put_index, put_indices, put_numbers, put_word};
use std::alloc::AllocError;
use w_syntax::{Binop, Cvtop, IntType, LoadOp, MemArg, MemoryOp, NumericOp, Relop, StoreOp, Unop};

// The name of a test for 0.
#[tactic(auto, unfolding(w_lines::specs::Instructions::rows))]
fn eqz_name(kind: IntType) -> &'static str
    ensures { result.now ≡ token_name (tok.Plain (op.Numeric (numeric.Eqz kind))) }
{
    match kind {
        IntType::I32 => "i32.eqz",
        IntType::I64 => "i64.eqz",
    }
}

// The name of a comparison of two integers.
#[tactic(auto, unfolding(w_lines::specs::Instructions::rows))]
fn compare_name(kind: IntType, operation: Relop) -> &'static str
    ensures { result.now ≡ token_name (tok.Plain (op.Numeric (numeric.Compare kind operation))) }
{
    match (kind, operation) {
        (IntType::I32, Relop::Eq) => "i32.eq",
        (IntType::I32, Relop::Ne) => "i32.ne",
        (IntType::I32, Relop::LtS) => "i32.lt_s",
        (IntType::I32, Relop::LtU) => "i32.lt_u",
        (IntType::I32, Relop::GtS) => "i32.gt_s",
        (IntType::I32, Relop::GtU) => "i32.gt_u",
        (IntType::I32, Relop::LeS) => "i32.le_s",
        (IntType::I32, Relop::LeU) => "i32.le_u",
        (IntType::I32, Relop::GeS) => "i32.ge_s",
        (IntType::I32, Relop::GeU) => "i32.ge_u",
        (IntType::I64, Relop::Eq) => "i64.eq",
        (IntType::I64, Relop::Ne) => "i64.ne",
        (IntType::I64, Relop::LtS) => "i64.lt_s",
        (IntType::I64, Relop::LtU) => "i64.lt_u",
        (IntType::I64, Relop::GtS) => "i64.gt_s",
        (IntType::I64, Relop::GtU) => "i64.gt_u",
        (IntType::I64, Relop::LeS) => "i64.le_s",
        (IntType::I64, Relop::LeU) => "i64.le_u",
        (IntType::I64, Relop::GeS) => "i64.ge_s",
        (IntType::I64, Relop::GeU) => "i64.ge_u",
    }
}

// The name of an operation on one integer.
#[tactic(auto, unfolding(w_lines::specs::Instructions::rows))]
fn unary_name(kind: IntType, operation: Unop) -> &'static str
    ensures { result.now ≡ token_name (tok.Plain (op.Numeric (numeric.Unary kind operation))) }
{
    match (kind, operation) {
        (IntType::I32, Unop::Clz) => "i32.clz",
        (IntType::I32, Unop::Ctz) => "i32.ctz",
        (IntType::I32, Unop::Popcnt) => "i32.popcnt",
        (IntType::I64, Unop::Clz) => "i64.clz",
        (IntType::I64, Unop::Ctz) => "i64.ctz",
        (IntType::I64, Unop::Popcnt) => "i64.popcnt",
    }
}

// The name of an operation on two integers.
#[tactic(auto, unfolding(w_lines::specs::Instructions::rows))]
fn binary_name(kind: IntType, operation: Binop) -> &'static str
    ensures { result.now ≡ token_name (tok.Plain (op.Numeric (numeric.Binary kind operation))) }
{
    match (kind, operation) {
        (IntType::I32, Binop::Add) => "i32.add",
        (IntType::I32, Binop::Sub) => "i32.sub",
        (IntType::I32, Binop::Mul) => "i32.mul",
        (IntType::I32, Binop::DivS) => "i32.div_s",
        (IntType::I32, Binop::DivU) => "i32.div_u",
        (IntType::I32, Binop::RemS) => "i32.rem_s",
        (IntType::I32, Binop::RemU) => "i32.rem_u",
        (IntType::I32, Binop::And) => "i32.and",
        (IntType::I32, Binop::Or) => "i32.or",
        (IntType::I32, Binop::Xor) => "i32.xor",
        (IntType::I32, Binop::Shl) => "i32.shl",
        (IntType::I32, Binop::ShrS) => "i32.shr_s",
        (IntType::I32, Binop::ShrU) => "i32.shr_u",
        (IntType::I32, Binop::Rotl) => "i32.rotl",
        (IntType::I32, Binop::Rotr) => "i32.rotr",
        (IntType::I64, Binop::Add) => "i64.add",
        (IntType::I64, Binop::Sub) => "i64.sub",
        (IntType::I64, Binop::Mul) => "i64.mul",
        (IntType::I64, Binop::DivS) => "i64.div_s",
        (IntType::I64, Binop::DivU) => "i64.div_u",
        (IntType::I64, Binop::RemS) => "i64.rem_s",
        (IntType::I64, Binop::RemU) => "i64.rem_u",
        (IntType::I64, Binop::And) => "i64.and",
        (IntType::I64, Binop::Or) => "i64.or",
        (IntType::I64, Binop::Xor) => "i64.xor",
        (IntType::I64, Binop::Shl) => "i64.shl",
        (IntType::I64, Binop::ShrS) => "i64.shr_s",
        (IntType::I64, Binop::ShrU) => "i64.shr_u",
        (IntType::I64, Binop::Rotl) => "i64.rotl",
        (IntType::I64, Binop::Rotr) => "i64.rotr",
    }
}

// The name of a conversion.
#[tactic(auto, unfolding(w_lines::specs::Instructions::rows))]
fn convert_name(operation: Cvtop) -> &'static str
    ensures { result.now ≡ token_name (tok.Plain (op.Numeric (numeric.Convert operation))) }
{
    match operation {
        Cvtop::I32WrapI64 => "i32.wrap_i64",
        Cvtop::I64ExtendI32S => "i64.extend_i32_s",
        Cvtop::I64ExtendI32U => "i64.extend_i32_u",
        Cvtop::I32Extend8S => "i32.extend8_s",
        Cvtop::I32Extend16S => "i32.extend16_s",
        Cvtop::I64Extend8S => "i64.extend8_s",
        Cvtop::I64Extend16S => "i64.extend16_s",
        Cvtop::I64Extend32S => "i64.extend32_s",
    }
}

// The name of a load.
#[tactic(auto, unfolding(w_lines::specs::Instructions::rows))]
fn load_name(load: LoadOp) -> &'static str
    ensures { (argument : TheMemArg) → result.now ≡ token_name (tok.Plain (op.Memory (memory.Load load argument))) }
{
    match load {
        LoadOp::I32Load => "i32.load",
        LoadOp::I64Load => "i64.load",
        LoadOp::I32Load8S => "i32.load8_s",
        LoadOp::I32Load8U => "i32.load8_u",
        LoadOp::I32Load16S => "i32.load16_s",
        LoadOp::I32Load16U => "i32.load16_u",
        LoadOp::I64Load8S => "i64.load8_s",
        LoadOp::I64Load8U => "i64.load8_u",
        LoadOp::I64Load16S => "i64.load16_s",
        LoadOp::I64Load16U => "i64.load16_u",
        LoadOp::I64Load32S => "i64.load32_s",
        LoadOp::I64Load32U => "i64.load32_u",
    }
}

// The name of a store.
#[tactic(auto, unfolding(w_lines::specs::Instructions::rows))]
fn store_name(store: StoreOp) -> &'static str
    ensures { (argument : TheMemArg) → result.now ≡ token_name (tok.Plain (op.Memory (memory.Store store argument))) }
{
    match store {
        StoreOp::I32Store => "i32.store",
        StoreOp::I64Store => "i64.store",
        StoreOp::I32Store8 => "i32.store8",
        StoreOp::I32Store16 => "i32.store16",
        StoreOp::I64Store8 => "i64.store8",
        StoreOp::I64Store16 => "i64.store16",
        StoreOp::I64Store32 => "i64.store32",
    }
}

/// Writes the line of a numeric instruction.
#[tactic(auto, unfolding(w_lines::specs::Instructions::rows))]
pub(crate) fn put_numeric(numeric: NumericOp, out: &mut Vec<u8>) -> Result<(), AllocError>
    ensures { OnOk result (out.new.items ≡ out.old.items ++ token_bytes (tok.Plain (op.Numeric numeric))) }
{
    match numeric {
        NumericOp::I32Const(number) => put_word("i32.const", &number, out),
        NumericOp::I64Const(number) => put_word("i64.const", &number, out),
        NumericOp::Eqz(kind) => put_alone(eqz_name(kind), out),
        NumericOp::Compare(kind, operation) => put_alone(compare_name(kind, operation), out),
        NumericOp::Unary(kind, operation) => put_alone(unary_name(kind, operation), out),
        NumericOp::Binary(kind, operation) => put_alone(binary_name(kind, operation), out),
        NumericOp::Convert(operation) => put_alone(convert_name(operation), out),
    }
}

// Writes the line of a load or a store.
fn put_access(name: &str, argument: MemArg, out: &mut Vec<u8>) -> Result<(), AllocError>
    ensures { OnOk result (out.new.items ≡ out.old.items ++ named_bytes name.now (two_words argument.align argument.offset)) }
{
    put_numbers(name, u64::from(argument.align), argument.offset, out)
}

/// Writes the line of a memory instruction.
#[tactic(auto, unfolding(w_lines::specs::Instructions::rows))]
pub(crate) fn put_memory(memory: MemoryOp, out: &mut Vec<u8>) -> Result<(), AllocError>
    ensures { OnOk result (out.new.items ≡ out.old.items ++ token_bytes (tok.Plain (op.Memory memory))) }
{
    match memory {
        MemoryOp::Load(load, argument) => put_access(load_name(load), argument, out),
        MemoryOp::Store(store, argument) => put_access(store_name(store), argument, out),
        MemoryOp::Size(memory) => put_index("memory.size", memory, out),
        MemoryOp::Grow(memory) => put_index("memory.grow", memory, out),
        MemoryOp::Init(data, memory) => put_indices("memory.init", data, memory, out),
        MemoryOp::DataDrop(data) => put_index("data.drop", data, out),
        MemoryOp::Copy(to, from) => put_indices("memory.copy", to, from, out),
        MemoryOp::Fill(memory) => put_index("memory.fill", memory, out),
    }
}
