//! Numeric instructions (Core, binary format, numeric instructions).
ghost use Rattle.std.specs.Prelude.{◌≡◌, IfSome, Some};
ghost use Rattle.w_leb.specs.Format.{ReadsAt};
ghost use Rattle.w_leb.specs.Formats.{constant};
ghost use Rattle.w_syntax.specs.declared.numeric.NumericOp.TheVariants as numeric;
ghost use Rattle.w_syntax.specs.Tokens.{numeric_op};
ghost use Rattle.w_code.specs.Opcodes.{IsBinary, IsRelation, IsUnary, Selects, tested_type as the_tested_type, worked_type as the_worked_type};

use w_leb::{read_byte, read_s32, read_s64};
use w_syntax::{Binop, Cvtop, IntType, NumericOp, Relop, Unop};

/// The type of the integers that an opcode tests.
pub(crate) fn tested_type(tag: u8) -> IntType
    ensures { result ≡ the_tested_type tag }
{
    if tag < 0x50 {
        IntType::I32
    } else {
        IntType::I64
    }
}

/// The type of the integers that an opcode works on.
pub(crate) fn worked_type(tag: u8) -> IntType
    ensures { result ≡ the_worked_type tag }
{
    if tag < 0x79 {
        IntType::I32
    } else {
        IntType::I64
    }
}

/// The test of two integers. Out of line it is looked up, where a jump would be guessed.
#[inline(never)]
#[tactic(auto, unfolding(w_syntax::specs::Tokens::numeric_op, w_syntax::specs::Tokens::comparison))]
pub(crate) fn relop_of(tag: u8) -> Relop
    requires { IsRelation tag }
    ensures { Selects numeric_op tag (constant (numeric.Compare (the_tested_type tag) result)) }
{
    match tag {
        0x46 | 0x51 => Relop::Eq,
        0x47 | 0x52 => Relop::Ne,
        0x48 | 0x53 => Relop::LtS,
        0x49 | 0x54 => Relop::LtU,
        0x4A | 0x55 => Relop::GtS,
        0x4B | 0x56 => Relop::GtU,
        0x4C | 0x57 => Relop::LeS,
        0x4D | 0x58 => Relop::LeU,
        0x4E | 0x59 => Relop::GeS,
        _ => Relop::GeU,
    }
}

/// The operation on one integer.
#[inline(never)]
#[tactic(auto, unfolding(w_syntax::specs::Tokens::numeric_op, w_syntax::specs::Tokens::comparison, w_syntax::specs::Tokens::arithmetic))]
pub(crate) fn unop_of(tag: u8) -> Unop
    requires { IsUnary tag }
    ensures { Selects numeric_op tag (constant (numeric.Unary (the_worked_type tag) result)) }
{
    match tag {
        0x67 | 0x79 => Unop::Clz,
        0x68 | 0x7A => Unop::Ctz,
        _ => Unop::Popcnt,
    }
}

/// The operation on two integers.
#[inline(never)]
#[tactic(auto, unfolding(w_syntax::specs::Tokens::numeric_op, w_syntax::specs::Tokens::comparison, w_syntax::specs::Tokens::arithmetic))]
pub(crate) fn binop_of(tag: u8) -> Binop
    requires { IsBinary tag }
    ensures { Selects numeric_op tag (constant (numeric.Binary (the_worked_type tag) result)) }
{
    match tag {
        0x6A | 0x7C => Binop::Add,
        0x6B | 0x7D => Binop::Sub,
        0x6C | 0x7E => Binop::Mul,
        0x6D | 0x7F => Binop::DivS,
        0x6E | 0x80 => Binop::DivU,
        0x6F | 0x81 => Binop::RemS,
        0x70 | 0x82 => Binop::RemU,
        0x71 | 0x83 => Binop::And,
        0x72 | 0x84 => Binop::Or,
        0x73 | 0x85 => Binop::Xor,
        0x74 | 0x86 => Binop::Shl,
        0x75 | 0x87 => Binop::ShrS,
        0x76 | 0x88 => Binop::ShrU,
        0x77 | 0x89 => Binop::Rotl,
        _ => Binop::Rotr,
    }
}

/// The constant at a place. `None` says nothing of what stands there.
#[inline(always)]
#[tactic(auto, unfolding(w_syntax::specs::Tokens::numeric_op))]
pub(crate) fn constant_at(bytes: &[u8], at: usize) -> Option<(NumericOp, usize)>
    ensures { IfSome result (λ found. ReadsAt numeric_op.read bytes.now at (Some found)) }
{
    let (tag, next) = read_byte(bytes, at)?;
    match tag {
        0x41 => {
            let (number, next) = read_s32(bytes, next)?;
            Some((NumericOp::I32Const(number), next))
        }
        0x42 => {
            let (number, next) = read_s64(bytes, next)?;
            Some((NumericOp::I64Const(number), next))
        }
        _ => None,
    }
}

/// The numeric instruction at a place.
#[tactic(auto, unfolding(w_syntax::specs::Tokens::numeric_op))]
pub(crate) fn numeric_at(bytes: &[u8], at: usize) -> Option<(NumericOp, usize)>
    ensures { ReadsAt numeric_op.read bytes.now at result }
{
    let Some((tag, next)) = read_byte(bytes, at) else {
        return None;
    };
    let op = match tag {
        0x41 => {
            let Some((number, next)) = read_s32(bytes, next) else {
                return None;
            };
            return Some((NumericOp::I32Const(number), next));
        }
        0x42 => {
            let Some((number, next)) = read_s64(bytes, next) else {
                return None;
            };
            return Some((NumericOp::I64Const(number), next));
        }
        0x45 | 0x50 => NumericOp::Eqz(tested_type(tag)),
        0x46..=0x4F | 0x51..=0x5A => NumericOp::Compare(tested_type(tag), relop_of(tag)),
        0x67..=0x69 | 0x79..=0x7B => NumericOp::Unary(worked_type(tag), unop_of(tag)),
        0x6A..=0x78 | 0x7C..=0x8A => NumericOp::Binary(worked_type(tag), binop_of(tag)),
        0xA7 => NumericOp::Convert(Cvtop::I32WrapI64),
        0xAC => NumericOp::Convert(Cvtop::I64ExtendI32S),
        0xAD => NumericOp::Convert(Cvtop::I64ExtendI32U),
        0xC0 => NumericOp::Convert(Cvtop::I32Extend8S),
        0xC1 => NumericOp::Convert(Cvtop::I32Extend16S),
        0xC2 => NumericOp::Convert(Cvtop::I64Extend8S),
        0xC3 => NumericOp::Convert(Cvtop::I64Extend16S),
        0xC4 => NumericOp::Convert(Cvtop::I64Extend32S),
        _ => return None,
    };
    Some((op, next))
}
