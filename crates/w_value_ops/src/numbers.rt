//! Numeric operations on values.
ghost use Rattle.std.specs.Prelude.{◌≡◌};
ghost use Rattle.w_syntax.specs.declared.numeric.IntType.TheVariants as int;
ghost use Rattle.w_num.specs.Comparisons.{ieqz};
ghost use Rattle.w_reduce.specs.Numeric.{width, unop, binop, relop, cvtop, taken_by, given_by};
ghost use Rattle.w_stands.specs.Numbers.{IsNumber, bits_in, value_of};
ghost use Rattle.w_value_ops.specs.Numbers.{given};

use w_num::{
    NumFault, i32_add, i32_and, i32_clz, i32_ctz, i32_div_s, i32_div_u, i32_eq, i32_eqz,
    i32_extend8_s, i32_extend16_s, i32_ge_s, i32_ge_u, i32_gt_s, i32_gt_u, i32_le_s, i32_le_u,
    i32_lt_s, i32_lt_u, i32_mul, i32_ne, i32_or, i32_popcnt, i32_rem_s, i32_rem_u, i32_rotl,
    i32_rotr, i32_shl, i32_shr_s, i32_shr_u, i32_sub, i32_wrap_i64, i32_xor, i64_add, i64_and,
    i64_clz, i64_ctz, i64_div_s, i64_div_u, i64_eq, i64_eqz, i64_extend_i32_s, i64_extend_i32_u,
    i64_extend8_s, i64_extend16_s, i64_extend32_s, i64_ge_s, i64_ge_u, i64_gt_s, i64_gt_u,
    i64_le_s, i64_le_u, i64_lt_s, i64_lt_u, i64_mul, i64_ne, i64_or, i64_popcnt, i64_rem_s,
    i64_rem_u, i64_rotl, i64_rotr, i64_shl, i64_shr_s, i64_shr_u, i64_sub, i64_xor,
};
use w_stands::{i32_of, i64_of};
use w_syntax::{Binop, Cvtop, IntType, Relop, Unop};
use w_types::Value;

/// A unary operator of i32.
#[inline(always)]
pub(crate) fn unary_i32(op: Unop, a: u32) -> u32
    ensures { result ≡ unop op 32 a }
{
    match op {
        Unop::Clz => i32_clz(a),
        Unop::Ctz => i32_ctz(a),
        Unop::Popcnt => i32_popcnt(a),
    }
}

/// A unary operator of i64.
#[inline(always)]
pub(crate) fn unary_i64(op: Unop, a: u64) -> u64
    ensures { result ≡ unop op 64 a }
{
    match op {
        Unop::Clz => i64_clz(a),
        Unop::Ctz => i64_ctz(a),
        Unop::Popcnt => i64_popcnt(a),
    }
}

/// A binary operator of i32.
#[inline(always)]
pub(crate) fn binary_i32(op: Binop, a: u32, b: u32) -> Result<u32, NumFault>
    ensures { result ≡ binop op 32 a b }
{
    match op {
        Binop::Add => Ok(i32_add(a, b)),
        Binop::Sub => Ok(i32_sub(a, b)),
        Binop::Mul => Ok(i32_mul(a, b)),
        Binop::DivS => i32_div_s(a, b),
        Binop::DivU => i32_div_u(a, b),
        Binop::RemS => i32_rem_s(a, b),
        Binop::RemU => i32_rem_u(a, b),
        Binop::And => Ok(i32_and(a, b)),
        Binop::Or => Ok(i32_or(a, b)),
        Binop::Xor => Ok(i32_xor(a, b)),
        Binop::Shl => Ok(i32_shl(a, b)),
        Binop::ShrS => Ok(i32_shr_s(a, b)),
        Binop::ShrU => Ok(i32_shr_u(a, b)),
        Binop::Rotl => Ok(i32_rotl(a, b)),
        Binop::Rotr => Ok(i32_rotr(a, b)),
    }
}

/// A binary operator of i64.
#[inline(always)]
pub(crate) fn binary_i64(op: Binop, a: u64, b: u64) -> Result<u64, NumFault>
    ensures { result ≡ binop op 64 a b }
{
    match op {
        Binop::Add => Ok(i64_add(a, b)),
        Binop::Sub => Ok(i64_sub(a, b)),
        Binop::Mul => Ok(i64_mul(a, b)),
        Binop::DivS => i64_div_s(a, b),
        Binop::DivU => i64_div_u(a, b),
        Binop::RemS => i64_rem_s(a, b),
        Binop::RemU => i64_rem_u(a, b),
        Binop::And => Ok(i64_and(a, b)),
        Binop::Or => Ok(i64_or(a, b)),
        Binop::Xor => Ok(i64_xor(a, b)),
        Binop::Shl => Ok(i64_shl(a, b)),
        Binop::ShrS => Ok(i64_shr_s(a, b)),
        Binop::ShrU => Ok(i64_shr_u(a, b)),
        Binop::Rotl => Ok(i64_rotl(a, b)),
        Binop::Rotr => Ok(i64_rotr(a, b)),
    }
}

/// A comparison of i32.
#[inline(always)]
pub(crate) fn compare_i32(op: Relop, a: u32, b: u32) -> u32
    ensures { result ≡ relop op 32 a b }
{
    match op {
        Relop::Eq => i32_eq(a, b),
        Relop::Ne => i32_ne(a, b),
        Relop::LtS => i32_lt_s(a, b),
        Relop::LtU => i32_lt_u(a, b),
        Relop::GtS => i32_gt_s(a, b),
        Relop::GtU => i32_gt_u(a, b),
        Relop::LeS => i32_le_s(a, b),
        Relop::LeU => i32_le_u(a, b),
        Relop::GeS => i32_ge_s(a, b),
        Relop::GeU => i32_ge_u(a, b),
    }
}

/// A comparison of i64.
#[inline(always)]
pub(crate) fn compare_i64(op: Relop, a: u64, b: u64) -> u32
    ensures { result ≡ relop op 64 a b }
{
    match op {
        Relop::Eq => i64_eq(a, b),
        Relop::Ne => i64_ne(a, b),
        Relop::LtS => i64_lt_s(a, b),
        Relop::LtU => i64_lt_u(a, b),
        Relop::GtS => i64_gt_s(a, b),
        Relop::GtU => i64_gt_u(a, b),
        Relop::LeS => i64_le_s(a, b),
        Relop::LeU => i64_le_u(a, b),
        Relop::GeS => i64_ge_s(a, b),
        Relop::GeU => i64_ge_u(a, b),
    }
}

/// A conversion.
#[inline(always)]
pub(crate) fn converted(op: Cvtop, value: Value) -> Value
    requires { IsNumber (taken_by op) value }
    ensures { result ≡ value_of (given_by op) (cvtop op (bits_in value)) }
{
    match op {
        Cvtop::I32WrapI64 => Value::I32(i32_wrap_i64(i64_of(value))),
        Cvtop::I64ExtendI32S => Value::I64(i64_extend_i32_s(i32_of(value))),
        Cvtop::I64ExtendI32U => Value::I64(i64_extend_i32_u(i32_of(value))),
        Cvtop::I32Extend8S => Value::I32(i32_extend8_s(i32_of(value))),
        Cvtop::I32Extend16S => Value::I32(i32_extend16_s(i32_of(value))),
        Cvtop::I64Extend8S => Value::I64(i64_extend8_s(i64_of(value))),
        Cvtop::I64Extend16S => Value::I64(i64_extend16_s(i64_of(value))),
        Cvtop::I64Extend32S => Value::I64(i64_extend32_s(i64_of(value))),
    }
}

/// A unary operator.
#[inline(always)]
pub(crate) fn unary_of(kind: IntType, op: Unop, value: Value) -> Value
    requires { IsNumber kind value }
    ensures { result ≡ value_of kind (unop op (width kind) (bits_in value)) }
{
    match kind {
        IntType::I32 => Value::I32(unary_i32(op, i32_of(value))),
        IntType::I64 => Value::I64(unary_i64(op, i64_of(value))),
    }
}

/// Whether a number is 0.
#[inline(always)]
pub(crate) fn eqz_of(kind: IntType, value: Value) -> Value
    requires { IsNumber kind value }
    ensures { result ≡ value_of int.I32 (ieqz (width kind) (bits_in value)) }
{
    match kind {
        IntType::I32 => Value::I32(i32_eqz(i32_of(value))),
        IntType::I64 => Value::I32(i64_eqz(i64_of(value))),
    }
}

/// A comparison.
#[inline(always)]
pub(crate) fn compared(kind: IntType, op: Relop, a: Value, b: Value) -> Value
    requires one { IsNumber kind a }
    requires other { IsNumber kind b }
    ensures { result ≡ value_of int.I32 (relop op (width kind) (bits_in a) (bits_in b)) }
{
    match kind {
        IntType::I32 => Value::I32(compare_i32(op, i32_of(a), i32_of(b))),
        IntType::I64 => Value::I32(compare_i64(op, i64_of(a), i64_of(b))),
    }
}

/// A binary operator.
#[inline(always)]
pub(crate) fn joined(kind: IntType, op: Binop, a: Value, b: Value) -> Result<Value, NumFault>
    requires one { IsNumber kind a }
    requires other { IsNumber kind b }
    ensures { result ≡ given kind (binop op (width kind) (bits_in a) (bits_in b)) }
{
    match kind {
        IntType::I32 => match binary_i32(op, i32_of(a), i32_of(b)) {
            Ok(bits) => Ok(Value::I32(bits)),
            Err(fault) => Err(fault),
        },
        IntType::I64 => match binary_i64(op, i64_of(a), i64_of(b)) {
            Ok(bits) => Ok(Value::I64(bits)),
            Err(fault) => Err(fault),
        },
    }
}
