//! Operands that an instruction takes, read in place.
ghost use Rattle.std.specs.Prelude.{◌≡◌, ◌≤◌, ◌∷◌, drop, length};
ghost use Rattle.w_syntax.specs.declared.numeric.IntType.TheVariants as int;
ghost use Rattle.w_stands.specs.Numbers.{IsNumber, bits_in};
ghost use Rattle.w_stands.specs.References.{is_null};

use w_segment::Stack;
use w_types::Value;

/// The bits of an i32.
#[inline(always)]
pub fn i32_of(value: Value) -> u32
    requires { IsNumber int.I32 value }
    ensures { result ≡ bits_in value }
{
    match value {
        Value::I32(bits) => bits,
        _ => unreachable!(),
    }
}

/// The bits of an i64.
#[inline(always)]
pub fn i64_of(value: Value) -> u64
    requires { IsNumber int.I64 value }
    ensures { result ≡ bits_in value }
{
    match value {
        Value::I64(bits) => bits,
        _ => unreachable!(),
    }
}

/// Whether it is the null reference.
#[inline(always)]
pub fn is_null(value: Value) -> bool
    ensures { result ≡ is_null value }
{
    matches!(value, Value::Null)
}

/// The two topmost operands, the topmost last.
#[inline(always)]
pub fn top_two(stack: &Stack) -> (Value, Value)
    requires { 2 ≤ length stack.now.operands }
    ensures { stack.now.operands ≡ result.1 ∷ result.0 ∷ drop 2 stack.now.operands }
{
    let tops = stack.tops(2);
    (tops[0], tops[1])
}

/// The three topmost operands, the topmost last.
#[inline(always)]
pub fn top_three(stack: &Stack) -> (Value, Value, Value)
    requires { 3 ≤ length stack.now.operands }
    ensures { stack.now.operands ≡ result.2 ∷ result.1 ∷ result.0 ∷ drop 3 stack.now.operands }
{
    let tops = stack.tops(3);
    (tops[0], tops[1], tops[2])
}
