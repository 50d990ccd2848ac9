//! Instructions that hold no others (Core, binary format, instructions; the explainer, binary format).
ghost use Rattle.std.specs.Prelude.{IfOk};
ghost use Rattle.w_leb.specs.Format.{ReadsAt, BeginsAt};
ghost use Rattle.w_leb.specs.Formats.{table};
ghost use Rattle.w_syntax.specs.Tokens.{plain, other, instruction};
ghost use Rattle.w_code.specs.Parts.{parametrics, indexed, references};

use crate::bulk::bulk_at;
use crate::control::control_at;
use crate::memory::memory_op_at;
use crate::numeric::numeric_at;
use crate::switching::switching_at;
use std::alloc::{AllocError, Global};
use w_fields::{Field, ValTypeField, field_at, heaptype_at, vec_at};
use w_leb::{read_byte, read_u32};
use w_syntax::{Op, ParametricOp, ReferenceOp, TableOp, VariableOp};

// Memory and numeric instructions.
#[tactic(auto, unfolding(w_syntax::specs::Tokens::plain, w_syntax::specs::Tokens::memory_op))]
fn plain_at(bytes: &[u8], at: usize) -> Option<(Op, usize)>
    ensures { ReadsAt plain.read bytes.now at result }
{
    let Some((tag, _)) = read_byte(bytes, at) else {
        return None;
    };
    match tag {
        0x28..=0x29 | 0x2C..=0x37 | 0x3A..=0x40 => {
            let Some((op, next)) = memory_op_at(bytes, at) else {
                return None;
            };
            Some((Op::Memory(op), next))
        }
        _ => {
            let Some((op, next)) = numeric_at(bytes, at) else {
                return None;
            };
            Some((Op::Numeric(op), next))
        }
    }
}

// Parametric instructions.
fn parametric_at(alloc: Global, bytes: &[u8], at: usize) -> Result<Option<(Op, usize)>, AllocError>
    ensures { IfOk result (ReadsAt (table parametrics).read bytes.now at) }
{
    let Some((tag, next)) = read_byte(bytes, at) else {
        return Ok(None);
    };
    match tag {
        0x1A => Ok(Some((Op::Parametric(ParametricOp::Drop), next))),
        0x1B => Ok(Some((Op::Parametric(ParametricOp::Select), next))),
        0x1C => {
            let Some((kinds, next)) = vec_at::<ValTypeField>(alloc, bytes, next)? else {
                return Ok(None);
            };
            Ok(Some((Op::Parametric(ParametricOp::SelectOf(kinds)), next)))
        }
        _ => Ok(None),
    }
}

// Instructions on a variable or on one element of a table, which have one index.
fn indexed_at(bytes: &[u8], at: usize) -> Option<(Op, usize)>
    ensures { ReadsAt (table indexed).read bytes.now at result }
{
    let Some((tag, next)) = read_byte(bytes, at) else {
        return None;
    };
    let Some((index, next)) = read_u32(bytes, next) else {
        return None;
    };
    let op = match tag {
        0x20 => Op::Variable(VariableOp::LocalGet(index)),
        0x21 => Op::Variable(VariableOp::LocalSet(index)),
        0x22 => Op::Variable(VariableOp::LocalTee(index)),
        0x23 => Op::Variable(VariableOp::GlobalGet(index)),
        0x24 => Op::Variable(VariableOp::GlobalSet(index)),
        0x25 => Op::Table(TableOp::Get(index)),
        0x26 => Op::Table(TableOp::Set(index)),
        _ => return None,
    };
    Some((op, next))
}

// Reference instructions.
fn reference_at(bytes: &[u8], at: usize) -> Option<(Op, usize)>
    ensures { ReadsAt (table references).read bytes.now at result }
{
    let Some((tag, next)) = read_byte(bytes, at) else {
        return None;
    };
    match tag {
        0xD0 => {
            let Some((heap, next)) = heaptype_at(bytes, next) else {
                return None;
            };
            Some((Op::Reference(ReferenceOp::Null(heap)), next))
        }
        0xD1 => Some((Op::Reference(ReferenceOp::IsNull), next)),
        0xD2 => {
            let Some((index, next)) = read_u32(bytes, next) else {
                return None;
            };
            Some((Op::Reference(ReferenceOp::Func(index)), next))
        }
        0xD4 => Some((Op::Reference(ReferenceOp::AsNonNull), next)),
        _ => None,
    }
}

// All but control instructions.
#[tactic(auto, unfolding(w_syntax::specs::Tokens::other))]
fn other_at(alloc: Global, bytes: &[u8], at: usize) -> Result<Option<(Op, usize)>, AllocError>
    ensures { IfOk result (ReadsAt other.read bytes.now at) }
{
    let Some((tag, next)) = read_byte(bytes, at) else {
        return Ok(None);
    };
    match tag {
        0x1A..=0x1C => parametric_at(alloc, bytes, at),
        0x20..=0x26 => Ok(indexed_at(bytes, at)),
        0xD0..=0xD2 | 0xD4 => Ok(reference_at(bytes, at)),
        0xE0..=0xE3 | 0xE6 => switching_at(alloc, bytes, at),
        0xFC => Ok(bulk_at(bytes, next)),
        _ => Ok(plain_at(bytes, at)),
    }
}

// An instruction that holds no others, as a kind of field.
struct OpField;

impl Field for OpField {
    type Item = Op;

    ghost format = { instruction };

    #[tactic(auto, unfolding(w_syntax::specs::Tokens::instruction, w_syntax::specs::Tokens::control_op))]
    fn read(alloc: Global, bytes: &[u8], at: usize) -> Result<Option<(Op, usize)>, AllocError> {
        let Some((tag, _)) = read_byte(bytes, at) else {
            return Ok(None);
        };
        match tag {
            0x00..=0x01 | 0x0C..=0x15 | 0xD5..=0xD6 => {
                let Some((control, next)) = control_at(alloc, bytes, at)? else {
                    return Ok(None);
                };
                Ok(Some((Op::Control(control), next)))
            }
            _ => other_at(alloc, bytes, at),
        }
    }
}

/// The instruction at a place, if it holds no others (Core, binary format, instructions; the explainer, binary format). `None`
/// exactly where no spelling of one begins.
pub fn instruction_at(
    alloc: Global,
    bytes: &[u8],
    at: usize,
) -> Result<Option<(Op, usize)>, AllocError>
    ensures reads { IfOk result (ReadsAt instruction.read bytes.now at) }
    ensures begins { IfOk result (BeginsAt instruction.Spells bytes.now at) }
{
    field_at::<OpField>(alloc, bytes, at)
}
