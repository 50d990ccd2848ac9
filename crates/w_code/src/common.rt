//! Common instructions, each read by one look at its opcode and packed at once.
ghost use Rattle.std.specs.Prelude.{IfSome, Some};
ghost use Rattle.w_leb.specs.Format.{ReadsAt};
ghost use Rattle.w_syntax.specs.declared.instructions.Op.TheVariants as op;
ghost use Rattle.w_syntax.specs.declared.instructions.Token.TheVariants as tok;
ghost use Rattle.w_syntax.specs.Packed.{control_of};
ghost use Rattle.w_syntax.specs.Tokens.{token};
ghost use Rattle.w_code.specs.Common.{IsAlone, IsPlainAt};

use crate::families::{Family, family_of};
use crate::memory::memory_op_at;
use crate::numeric::{
    binop_of, constant_at, numeric_at, relop_of, tested_type, unop_of, worked_type,
};
use w_leb::{read_byte, read_u32};
use w_syntax::{PackedInstr, ShortControlOp, VariableOp};

// An instruction on a variable.
#[tactic(auto, unfolding(w_syntax::specs::Tokens::token, w_syntax::specs::Tokens::instruction, w_syntax::specs::Tokens::other))]
fn variable_at(bytes: &[u8], at: usize) -> Option<(VariableOp, usize)>
    ensures { IfSome result (λ found. ReadsAt token.read bytes.now at (Some (
      tok.Plain
          (op.Variable found.0),
      found.1,
    ))) }
{
    let (tag, next) = read_byte(bytes, at)?;
    let (index, next) = read_u32(bytes, next)?;
    match tag {
        0x20 => Some((VariableOp::LocalGet(index), next)),
        0x21 => Some((VariableOp::LocalSet(index), next)),
        0x22 => Some((VariableOp::LocalTee(index), next)),
        0x23 => Some((VariableOp::GlobalGet(index), next)),
        0x24 => Some((VariableOp::GlobalSet(index), next)),
        _ => None,
    }
}

// A branch or a call.
#[tactic(auto, unfolding(w_syntax::specs::Tokens::token, w_syntax::specs::Tokens::instruction))]
fn transfer_at(bytes: &[u8], at: usize) -> Option<(ShortControlOp, usize)>
    ensures { IfSome result (λ found. ReadsAt token.read bytes.now at (Some (
      tok.Plain (op.Control
          (control_of found.0)),
      found.1,
    ))) }
{
    let (tag, next) = read_byte(bytes, at)?;
    let (index, next) = read_u32(bytes, next)?;
    match tag {
        0x0C => Some((ShortControlOp::Br(index), next)),
        0x0D => Some((ShortControlOp::BrIf(index), next)),
        0x10 => Some((ShortControlOp::Call(index), next)),
        _ => None,
    }
}

// An instruction that is its opcode alone, and not a numeric one.
fn bare_of(tag: u8) -> Option<PackedInstr>
    ensures { IfSome result (IsAlone tag) }
{
    match tag {
        0x00 => Some(PackedInstr::Control(ShortControlOp::Unreachable)),
        0x01 => Some(PackedInstr::Control(ShortControlOp::Nop)),
        0x0F => Some(PackedInstr::Control(ShortControlOp::Return)),
        0x1A => Some(PackedInstr::Drop),
        0x1B => Some(PackedInstr::Select),
        _ => None,
    }
}

// A test of two integers.
#[inline(always)]
fn relation_of(tag: u8) -> Option<PackedInstr>
    ensures { IfSome result (IsAlone tag) }
{
    match tag {
        0x46..=0x4F | 0x51..=0x5A => Some(PackedInstr::Compare(tested_type(tag), relop_of(tag))),
        _ => None,
    }
}

// An operation on one or two integers.
#[inline(always)]
fn arithmetic_of(tag: u8) -> Option<PackedInstr>
    ensures { IfSome result (IsAlone tag) }
{
    match tag {
        0x6A..=0x78 | 0x7C..=0x8A => Some(PackedInstr::Binary(worked_type(tag), binop_of(tag))),
        0x67..=0x69 | 0x79..=0x7B => Some(PackedInstr::Unary(worked_type(tag), unop_of(tag))),
        _ => None,
    }
}

/// A common instruction at a place, which holds no others. `None` says nothing of what stands there.
#[inline]
pub(crate) fn common_at(bytes: &[u8], at: usize) -> Option<(PackedInstr, usize)>
    ensures { IfSome result (IsPlainAt bytes.now at) }
{
    let (tag, next) = read_byte(bytes, at)?;
    match family_of(tag) {
        Family::Alone => Some((bare_of(tag)?, next)),
        Family::Relation => Some((relation_of(tag)?, next)),
        Family::Arithmetic => Some((arithmetic_of(tag)?, next)),
        Family::Constant => {
            let (constant, next) = constant_at(bytes, at)?;
            Some((PackedInstr::numeric(constant), next))
        }
        Family::Variable => {
            let (variable, next) = variable_at(bytes, at)?;
            Some((PackedInstr::Variable(variable), next))
        }
        Family::Transfer => {
            let (control, next) = transfer_at(bytes, at)?;
            Some((PackedInstr::Control(control), next))
        }
        Family::Memory => {
            let (memory, next) = memory_op_at(bytes, at)?;
            Some((PackedInstr::memory(memory), next))
        }
        Family::Numeric => {
            let (numeric, next) = numeric_at(bytes, at)?;
            Some((PackedInstr::numeric(numeric), next))
        }
        Family::Other => None,
    }
}
