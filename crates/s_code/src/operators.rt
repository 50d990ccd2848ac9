//! Instructions behind those that are written, and operators.
ghost use Rattle.std.specs.Prelude.{◌≡◌, ◌++◌, ◌∷◌, [], OnOk};
ghost use Rattle.w_syntax.specs.declared.instructions.Op.TheVariants as op;
ghost use Rattle.w_syntax.specs.Code.{Code, Done, Plain};
ghost use Rattle.s_code.specs.Instructions.{binop_of, relop_of, local_get, local_set, unary_operator, comparison, arithmetic, truth};
ghost use Rattle.s_code.specs.Writes.{Writes};

use s_syntax::{Arithmetic, Comparison, UnaryOperator};
use std::alloc::AllocError;
use w_syntax::{
    Binop, ControlOp, Cvtop, IntType, NumericOp, Op, Relop, SwitchingOp, Token, VariableOp,
};

/// Writes a token.
pub(crate) fn write_token(token: Token, out: &mut Vec<Token>) -> Result<(), AllocError>
    ensures token { OnOk result (out.new.items ≡ out.old.items ++ token ∷ []) }
{
    out.push(token)?;
    Ok(())
}

/// Writes an instruction that holds no others.
#[tactic(auto, using(crate::proofs::WrittenBehind::plain_written))]
pub(crate) fn write_op(op: Op, out: &mut Vec<Token>) -> Result<(), AllocError>
    ensures writes { OnOk result ((c : Code) → Writes out.old.items (Plain op c) out.new.items c) }
{
    out.push(Token::Plain(op))?;
    Ok(())
}

/// Writes a numeric instruction.
pub(crate) fn write_numeric(numeric: NumericOp, out: &mut Vec<Token>) -> Result<(), AllocError>
    ensures writes { OnOk result ((c : Code) → Writes out.old.items (Plain (op.Numeric numeric) c) out.new.items c) }
{
    write_op(Op::Numeric(numeric), out)
}

/// Writes a control instruction.
pub(crate) fn write_control(control: ControlOp, out: &mut Vec<Token>) -> Result<(), AllocError>
    ensures writes { OnOk result ((c : Code) → Writes out.old.items (Plain (op.Control control) c) out.new.items c) }
{
    write_op(Op::Control(control), out)
}

/// Writes a stack switching instruction.
pub(crate) fn write_switching(
    switching: SwitchingOp,
    out: &mut Vec<Token>,
) -> Result<(), AllocError>
    ensures writes { OnOk result ((c : Code) → Writes out.old.items (Plain (op.Switching switching) c) out.new.items c) }
{
    write_op(Op::Switching(switching), out)
}

/// Writes the reading of a local.
pub(crate) fn write_get(local: u32, out: &mut Vec<Token>) -> Result<(), AllocError>
    ensures writes { OnOk result ((c : Code) → Writes out.old.items (Plain (local_get local) c) out.new.items c) }
{
    write_op(Op::Variable(VariableOp::LocalGet(local)), out)
}

/// Writes the setting of a local.
pub(crate) fn write_set(local: u32, out: &mut Vec<Token>) -> Result<(), AllocError>
    ensures writes { OnOk result ((c : Code) → Writes out.old.items (Plain (local_set local) c) out.new.items c) }
{
    write_op(Op::Variable(VariableOp::LocalSet(local)), out)
}

/// Writes an operator behind its operand.
pub(crate) fn write_unary(operator: UnaryOperator, out: &mut Vec<Token>) -> Result<(), AllocError>
    ensures writes { OnOk result ((c : Code) → Writes out.old.items (unary_operator operator c) out.new.items c) }
{
    match operator {
        UnaryOperator::Minus => {
            write_numeric(NumericOp::I64Const(-1), out)?;
            write_numeric(NumericOp::Binary(IntType::I64, Binop::Mul), out)
        }
        UnaryOperator::Not => {
            write_numeric(NumericOp::Eqz(IntType::I64), out)?;
            write_numeric(NumericOp::Convert(Cvtop::I64ExtendI32U), out)
        }
    }
}

// The comparison of a module that is that of a script.
fn relop(comparison: Comparison) -> Relop
    ensures value { result ≡ relop_of comparison }
{
    match comparison {
        Comparison::Equal => Relop::Eq,
        Comparison::NotEqual => Relop::Ne,
        Comparison::Less => Relop::LtS,
        Comparison::AtMost => Relop::LeS,
        Comparison::Greater => Relop::GtS,
        Comparison::AtLeast => Relop::GeS,
    }
}

/// Writes a comparison behind its operands.
pub(crate) fn write_comparison(operator: Comparison, out: &mut Vec<Token>) -> Result<(), AllocError>
    ensures writes { OnOk result ((c : Code) → Writes out.old.items (comparison operator c) out.new.items c) }
{
    write_numeric(NumericOp::Compare(IntType::I64, relop(operator)), out)?;
    write_numeric(NumericOp::Convert(Cvtop::I64ExtendI32U), out)
}

// The operation of a module that is that of a script.
fn binop(arithmetic: Arithmetic) -> Binop
    ensures value { result ≡ binop_of arithmetic }
{
    match arithmetic {
        Arithmetic::Add => Binop::Add,
        Arithmetic::Subtract => Binop::Sub,
        Arithmetic::Multiply => Binop::Mul,
        Arithmetic::Divide => Binop::DivS,
        Arithmetic::Remainder => Binop::RemS,
    }
}

/// Writes an arithmetic operator behind its operands.
pub(crate) fn write_arithmetic(operator: Arithmetic, out: &mut Vec<Token>) -> Result<(), AllocError>
    ensures writes { OnOk result ((c : Code) → Writes out.old.items (arithmetic operator c) out.new.items c) }
{
    write_numeric(NumericOp::Binary(IntType::I64, binop(operator)), out)
}

/// Writes what makes 0 or 1 of a number, which ends its sequence.
pub(crate) fn write_truth(out: &mut Vec<Token>) -> Result<(), AllocError>
    ensures writes { OnOk result (Writes out.old.items truth out.new.items Done) }
{
    write_numeric(NumericOp::Eqz(IntType::I64), out)?;
    write_numeric(NumericOp::Eqz(IntType::I32), out)?;
    write_numeric(NumericOp::Convert(Cvtop::I64ExtendI32U), out)
}
