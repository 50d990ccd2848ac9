//! Numeric instructions, by their opcodes.
ghost use Rattle.std.specs.Prelude.{◌≡◌};
ghost use Rattle.w_encode.specs.InstructionsWritten.{eqz_code, compare_code, unary_code, binary_code, convert_code, numeric_written};

use crate::put::Put;
use std::alloc::AllocError;
use w_syntax::{Binop, Cvtop, IntType, NumericOp, Relop, Unop};

fn eqz_code(kind: IntType) -> u8
    ensures { result ≡ eqz_code kind }
{
    match kind {
        IntType::I32 => 0x45,
        IntType::I64 => 0x50,
    }
}

fn compare_code(kind: IntType, operation: Relop) -> u8
    ensures { result ≡ compare_code kind operation }
{
    match (kind, operation) {
        (IntType::I32, Relop::Eq) => 0x46,
        (IntType::I32, Relop::Ne) => 0x47,
        (IntType::I32, Relop::LtS) => 0x48,
        (IntType::I32, Relop::LtU) => 0x49,
        (IntType::I32, Relop::GtS) => 0x4A,
        (IntType::I32, Relop::GtU) => 0x4B,
        (IntType::I32, Relop::LeS) => 0x4C,
        (IntType::I32, Relop::LeU) => 0x4D,
        (IntType::I32, Relop::GeS) => 0x4E,
        (IntType::I32, Relop::GeU) => 0x4F,
        (IntType::I64, Relop::Eq) => 0x51,
        (IntType::I64, Relop::Ne) => 0x52,
        (IntType::I64, Relop::LtS) => 0x53,
        (IntType::I64, Relop::LtU) => 0x54,
        (IntType::I64, Relop::GtS) => 0x55,
        (IntType::I64, Relop::GtU) => 0x56,
        (IntType::I64, Relop::LeS) => 0x57,
        (IntType::I64, Relop::LeU) => 0x58,
        (IntType::I64, Relop::GeS) => 0x59,
        (IntType::I64, Relop::GeU) => 0x5A,
    }
}

fn unary_code(kind: IntType, operation: Unop) -> u8
    ensures { result ≡ unary_code kind operation }
{
    match (kind, operation) {
        (IntType::I32, Unop::Clz) => 0x67,
        (IntType::I32, Unop::Ctz) => 0x68,
        (IntType::I32, Unop::Popcnt) => 0x69,
        (IntType::I64, Unop::Clz) => 0x79,
        (IntType::I64, Unop::Ctz) => 0x7A,
        (IntType::I64, Unop::Popcnt) => 0x7B,
    }
}

fn binary_code(kind: IntType, operation: Binop) -> u8
    ensures { result ≡ binary_code kind operation }
{
    match (kind, operation) {
        (IntType::I32, Binop::Add) => 0x6A,
        (IntType::I32, Binop::Sub) => 0x6B,
        (IntType::I32, Binop::Mul) => 0x6C,
        (IntType::I32, Binop::DivS) => 0x6D,
        (IntType::I32, Binop::DivU) => 0x6E,
        (IntType::I32, Binop::RemS) => 0x6F,
        (IntType::I32, Binop::RemU) => 0x70,
        (IntType::I32, Binop::And) => 0x71,
        (IntType::I32, Binop::Or) => 0x72,
        (IntType::I32, Binop::Xor) => 0x73,
        (IntType::I32, Binop::Shl) => 0x74,
        (IntType::I32, Binop::ShrS) => 0x75,
        (IntType::I32, Binop::ShrU) => 0x76,
        (IntType::I32, Binop::Rotl) => 0x77,
        (IntType::I32, Binop::Rotr) => 0x78,
        (IntType::I64, Binop::Add) => 0x7C,
        (IntType::I64, Binop::Sub) => 0x7D,
        (IntType::I64, Binop::Mul) => 0x7E,
        (IntType::I64, Binop::DivS) => 0x7F,
        (IntType::I64, Binop::DivU) => 0x80,
        (IntType::I64, Binop::RemS) => 0x81,
        (IntType::I64, Binop::RemU) => 0x82,
        (IntType::I64, Binop::And) => 0x83,
        (IntType::I64, Binop::Or) => 0x84,
        (IntType::I64, Binop::Xor) => 0x85,
        (IntType::I64, Binop::Shl) => 0x86,
        (IntType::I64, Binop::ShrS) => 0x87,
        (IntType::I64, Binop::ShrU) => 0x88,
        (IntType::I64, Binop::Rotl) => 0x89,
        (IntType::I64, Binop::Rotr) => 0x8A,
    }
}

fn convert_code(operation: Cvtop) -> u8
    ensures { result ≡ convert_code operation }
{
    match operation {
        Cvtop::I32WrapI64 => 0xA7,
        Cvtop::I64ExtendI32S => 0xAC,
        Cvtop::I64ExtendI32U => 0xAD,
        Cvtop::I32Extend8S => 0xC0,
        Cvtop::I32Extend16S => 0xC1,
        Cvtop::I64Extend8S => 0xC2,
        Cvtop::I64Extend16S => 0xC3,
        Cvtop::I64Extend32S => 0xC4,
    }
}

impl Put for NumericOp {
    ghost written = { numeric_written };

    fn put(&self, out: &mut Vec<u8>) -> Result<(), AllocError> {
        match *self {
            NumericOp::I32Const(value) => {
                out.push(0x41)?;
                (value as i64).put(out)?;
            }
            NumericOp::I64Const(value) => {
                out.push(0x42)?;
                value.put(out)?;
            }
            NumericOp::Eqz(kind) => out.push(eqz_code(kind))?,
            NumericOp::Compare(kind, operation) => out.push(compare_code(kind, operation))?,
            NumericOp::Unary(kind, operation) => out.push(unary_code(kind, operation))?,
            NumericOp::Binary(kind, operation) => out.push(binary_code(kind, operation))?,
            NumericOp::Convert(operation) => out.push(convert_code(operation))?,
        }
        Ok(())
    }
}
